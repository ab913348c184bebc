//! The codes of the chunks of a segment: free, reserved, staged or used; and the cursors at which blocks are taken.
//!
//! A segment is seen as the list of its 256 codes (`specs/Codes`), and what a pass of bulkfree has seen
//! of it as a list of 256 flags (`specs/Seen`). No call takes memory, and none can refuse.
#![tactic(auto)]

mod byte;
mod code;
mod cursor;
mod laws;
mod seen;
mod segment;
mod word;

pub use code::Code;
pub use cursor::Cursor;
pub use laws::layout_law;
pub use seen::Seen;
pub use segment::Segment;
pub use word::SEGMENT_BYTES;

#[cfg(test)]
mod tests;
