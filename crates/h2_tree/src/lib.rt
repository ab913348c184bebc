//! Trees of sets of references.
//!
//! A tree over any [`Sets`](h2_set::Sets) is seen as one list of leaves, sorted by key (`LeavesOf` of
//! `h2_set`). `lookup` and `range` read it and load what they need, `range` nothing but nodes that its keys touch;
//! `insert` adds a leaf or replaces the one with its range, `remove` takes one out. After a trouble nothing but loads
//! took place, so the list is as before; and where it is known, no bad block is met. What is said of the list says
//! nothing while no list is known; so each answer is also tied to what loaded nodes lead to: a leaf by its path
//! (`Reaches`, `LacksLeaf`), a range by `Lists`.
//!
//! An insertion or a removal changes the set of one node, once the path of the key is loaded (`GoesIn`, `GoesOut` in
//! `specs/Changes`); a full set is split by the split rule, and no indirect block is left empty. All other nodes stay
//! loaded, but for those below a reference that is cut because it leads to the removed leaf alone, and those that
//! belong to what this leaf names; these stand no longer. No node off the path of the key is loaded, and none is new but
//! the block that a split makes. Loaded paths to other keys stay loaded and lead to what they led to. References
//! change, in where their block lies alone, where they are on the way to the node, in its tree and from above its root.
#![tactic(auto)]

mod inserting;
mod laws;
mod listing;
mod loading;
mod looking_up;
mod removing;

pub use inserting::insert;
pub use laws::tree_law;
pub use listing::range;
pub use looking_up::lookup;
pub use removing::remove;
