//! The space of a volume: which chunks are free, where the next block goes, and which blocks are pinned.
//!
//! A freemap is seen as a record (`specs/Space`): the codes of all segments, a cursor for each of the two
//! sizes of blocks that share a chunk, the pinned blocks, and the room for more pins. What holds of each
//! freemap is `specs/Consistent`. A block is taken at its cursor, or in the lowest free chunk
//! (`specs/Taking`); how many free chunks blocks need is what taking them uses, in every order
//! (`specs/Need`, on [`need_law`]).
#![tactic(auto)]

mod cursor;
mod freemap;
mod laws;
mod making;
mod search;
mod size;

pub use freemap::Freemap;
pub use laws::need_law;
pub use size::Size;

#[cfg(test)]
mod tests;
