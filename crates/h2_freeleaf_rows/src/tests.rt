mod codecs;
mod plans;
mod reads;
