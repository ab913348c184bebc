//! Forests of sets and inodes in memory: every node in one vector.
//!
//! This is an implementation of [`Sets`](h2_set::Sets) and [`Nodes`](h2_inode::Nodes) without a disk, for the tests of crates over it. The load
//! that is to fail can be named, and a node that is loaded is judged first, so that trouble is met. A loaded node isn't
//! writable until it is altered, and none is once the next epoch begins, so that copies are met. What a value means is
//! told by `specs/View`: what is below a node that isn't loaded is told by nobody.
//!
//! Each call of the two traits keeps what `specs/Later` says (`GoesOn`): all names, what each block holds that isn't
//! written or lost by then, loaded or not, and which loads and calls are still to fail. The disk fails one load at most
//! for each that is planned, and none where none is.
//!
//! Of one call the clauses at [`MemorySets`] say more, by `specs/Plans`: which load it counts, where it fails or answers a
//! bad block, and what becomes of the block of each node, loaded or not.
#![tactic(auto)]

mod adding;
mod allowing;
mod altering;
mod dropping;
mod hints;
mod holding;
mod inodes;
mod judging;
mod memory;
mod moving;
mod naming;
mod node;
mod owners;
mod planting;
mod refitting;
mod roots;
mod searching;
mod seeking;
mod sets;
mod unloading;

pub use memory::MemorySets;
pub use node::KeyClass;
