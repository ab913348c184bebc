//! What a new volume stands for: the forest of a formatted volume.
//!
//! The crate has a law alone. `h2_image` says by bytes what the image of a new volume holds, and `h2_meaning` which
//! forest stands in an image under a header; here they meet.
#![tactic(auto)]

mod laws;

pub use laws::formatted_law;
