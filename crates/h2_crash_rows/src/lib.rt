//! Worked examples of what a power cut may leave of a disk and of a volume on it, of the queue of a flush, and of pages
//! that a disk in memory keeps, as laws; nothing else. They show that the definitions of `h2_disk` and `h2_checkpoint`
//! say on small values what was worked out by hand, of images that may be left as of those that can't.
#![tactic(auto)]

mod cuts;
mod landings;
mod mounts;
mod pages;
mod volume_cuts;

pub use cuts::{worked_cuts_law, worked_headers_law};
pub use landings::{worked_landings_law, worked_queues_law};
pub use mounts::{worked_format_law, worked_marks_law, worked_mounts_law, worked_plan_law};
pub use pages::worked_pages_law;
pub use volume_cuts::worked_volume_cuts_law;
