//! The commands of the program.
//!
//! A run reads its words (`command_line`), does what they ask for (`formatting`, by the plan of `planning`: the
//! inodes of `blocks` at the places of `taking`, and the first copy of the freemap), and ends with a line and a
//! status (`run`). What a run does is the contract of [`run_alone`], clause by clause.
#![tactic(auto)]

mod blocks;
mod command_line;
mod decimal_number;
mod formatting;
mod planning;
mod run;
mod status;
mod taking;

pub use command_line::{Request, command_line_law, read_words};
pub use decimal_number::parse_decimal;
pub use formatting::{Formatting, find_newest, format_volume};
pub use planning::{Plan, plan_volume};
pub use run::{Outcome, run_alone};
pub use status::Status;
