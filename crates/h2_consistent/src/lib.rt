//! What every command keeps of the plain forest: in each PFS the inodes and the entries agree, and each open handle
//! names a file.
//!
//! The crate has laws alone. `h2_forest` says by cases what each command does to a table of inodes; `specs/FileTree`
//! says when a table is one that a volume may hold: number 1 is a directory that no entry names, each entry names an
//! inode of the table, a file's links are the number of entries that name it, every other directory is named by one
//! entry and reached from number 1, and each number is below the next one. The forest of a new volume is so, and each
//! command keeps it. `specs/Handles` says that an open handle names a file that stands, though its last link went.
#![tactic(auto)]

mod example;
mod laws;

pub use example::example_law;
pub use laws::{consistent_law, handles_law};
