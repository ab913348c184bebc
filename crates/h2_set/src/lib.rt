//! Sets of references, and the trait of a forest of them.
//!
//! A set is seen as a list of references whose ranges of keys are disjoint and ascend, and a capacity of 4
//! or 32 (`specs/RefSet`). A full set that shall take one more is split by the split rule: the least aligned
//! range of keys that holds at least half of the references goes into a block of its own (`IsSplitOf`). The bytes of
//! a set are one relation (`specs/SetBytes`): its references in order, and then empty ones.
//!
//! [`Sets`] is a forest of such sets, wherever its nodes come from: trees whose nodes are loaded, or told by a
//! disk, or neither (`specs/Forest`). What a tree means is one sorted list of leaves (`HasLeaves`), and each
//! call of the trait has one relation between the forest before and after it.
#![tactic(auto)]

mod conditions;
mod held;
mod laws;
mod range;
mod set;
mod set_decoding;
mod set_encoding;
mod sets;
mod split;

pub use held::is_held;
pub use laws::{path_law, set_bytes_law, split_law};
pub use range::{holds, is_indirect};
pub use set::{PutAnswer, Set, Split};
pub use set_decoding::{SetFault, decode_set};
pub use set_encoding::encode_set;
pub use sets::{NodeId, Sets};

#[cfg(test)]
mod set_tests;
#[cfg(test)]
mod tests;
