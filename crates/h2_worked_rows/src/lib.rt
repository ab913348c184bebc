//! Worked examples of the words in which forests, their handles and what trees stand for are spoken of, as laws; nothing
//! else. They show that definitions of `h2_forest`, `h2_consistent`, `h2_meaning`, `h2_set`, `h2_inode`, `h2_file` and
//! `h2_pfs` give on small values what was worked out by hand, and refuse other values.
#![tactic(auto)]

mod forests;
mod handles;
mod meanings;
mod passages;
mod ranges;
mod sound;
mod trees;
mod views;

pub use forests::{worked_forests_law, worked_names_law};
pub use handles::{worked_handles_law, worked_orphans_law};
pub use meanings::{worked_embedded_law, worked_replaced_law};
pub use passages::worked_passages_law;
pub use ranges::worked_ranges_law;
pub use sound::worked_sound_forest_law;
pub use trees::{worked_file_law, worked_other_law, worked_roots_law};
pub use views::{worked_bodies_law, worked_leaves_law, worked_views_law};
