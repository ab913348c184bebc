//! What an image of a volume holds: the header in a slot, the newest header, and what a new volume is.
//!
//! The crate has definitions and laws alone. `specs/NewBlocks` says what the inodes of a new volume spell,
//! `specs/NewVolume` what its image holds, with its freemap as `h2_freeleaf` has it, and `specs/VolumeFormat`
//! makes this the format that the law of checkpoints speaks of. The laws stand on functions with empty bodies.
#![tactic(auto)]

mod laws;
mod volume;

pub use laws::{format_law, new_leaf_law, new_volume_law};
pub use volume::Volume;
