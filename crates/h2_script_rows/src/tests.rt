mod scripts;
mod texts;
