//! The language of the volume: commands and their replies, and the history of a run.
//!
//! Commands, replies and the items of a history are plain data, and clauses see them as they are declared.
//! `specs/Lawful` says which commands a script can hold, and `specs/History` what a history keeps beside
//! its items. What a command does is no matter of this crate.
#![tactic(auto)]

mod command;
mod history;
mod lawful;
mod path;
mod reply;
mod same;

pub use command::Command;
pub use h2_contents::Payload;
pub use h2_dirkey::is_pfs_name;
pub use h2_ref::Why;
pub use history::{Entry, History, Item, Mark};
pub use path::Path;
pub use reply::Reply;
