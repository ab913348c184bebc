//! Worked examples of the words by which `h2_file` says what a write or a cut makes of a file, as laws; nothing else.
//! They show that these words give on small values what was worked out by hand, and that those which are relations
//! refuse other values.
#![tactic(auto)]

mod links;
mod writes;

pub use links::{worked_cut_law, worked_holes_law, worked_linked_law, worked_references_law};
pub use writes::{worked_merged_law, worked_touched_law, worked_written_law};
