mod bytes;
mod oracle;
mod table;
mod values;
