//! The script language of the volume, and the text that tells its replies.
//!
//! A script is lines; a line is skipped, ends a phase, or is a command of one of 8 clients. Which bytes are
//! a script, and which script they are, is a relation by cases (`specs/Scripts`), and so is what is wrong
//! first with bytes that are none. Bytes are one script or have one first fault, and never both, so reading
//! is exact either way. Each command of a script is lawful, and its clients are below 8. The text of a
//! history has a line for each reply (`specs/Texts`), and a history has one text.
#![tactic(auto)]

mod arguments;
mod commands;
mod counts;
mod cut;
mod fault;
mod laws;
mod line;
mod names;
mod number;
mod parsing;
mod path;
mod payload;
mod printing;
mod reading;
mod reply_text;
mod script;
mod verb;

pub use fault::{LineFault, ParseFault};
pub use laws::script_law;
pub use parsing::parse;
pub use printing::{text, text_law};
pub use script::Script;
