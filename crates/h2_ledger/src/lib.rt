//! The ledger of a volume's space, and its laws: why no block that is in use is ever marked free or handed
//! out again, and why what two successive passes of bulkfree find unused is free.
//!
//! It is plain data and stands by itself (`specs/Ledger`): the code of each chunk, the allocation cursors,
//! what is reserved, the blocks of the live tree, the pins of running commands, the frozen and the newest
//! completed root, and the pass of bulkfree with the blocks that it marked at its freeze. Sets of blocks
//! are values of a type that the reader chooses, with a relation that says which blocks are in a set. A
//! volume changes its space by moves (`specs/Moves`), and callers may rely on the laws of them.
#![tactic(auto)]

mod block_set;
mod laws;
mod pass;
mod shared_size;

pub use block_set::BlockSet;
pub use laws::{bulkfree_law, space_law, two_pass_law};
pub use pass::Pass;
pub use shared_size::SharedSize;

#[cfg(test)]
mod tests;
