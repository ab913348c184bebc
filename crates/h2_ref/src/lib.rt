//! References, and their 128 bytes.
//!
//! A reference names a block: its kind, the range of keys below it, its place and size, the id of the
//! checkpoint that wrote it, and the check of its bytes. An entry of a directory is a reference too, that
//! names an inode, and holds its name where that is short. Which references are valid is a table with a row
//! for each kind (`specs/Table`), whose methods of checks are rows of a table of their own (`specs/Methods`),
//! and the bytes are a relation with a clause for each field and each gap between (`specs/Ref`). A reference
//! has one spelling, and bytes spell one valid reference at most (`specs/Spelling`). Bytes that spell none
//! meet a first refusal, which is defined by the bytes (`specs/Fault`).
#![tactic(auto)]

mod decoding;
mod encoding;
mod faults;
mod flags;
mod judging;
mod laws;
mod layout;
mod methods;
mod reference;
mod rules;
mod set;
mod table;

pub use decoding::decode;
pub use encoding::encode;
pub use faults::{RefFault, Trouble, Why};
pub use laws::{refusal_law, spelling_law};
pub use layout::REF_BYTES;
pub use reference::{Check, Dirent, Kind, Ref};
pub use rules::in_span;
pub use set::{is_set, may_follow};
pub use table::Span;

#[cfg(test)]
mod tests;
