mod file;
mod mem;
mod sure;
