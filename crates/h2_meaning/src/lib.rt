//! What the trees of references of a volume stand for: files, directories, tables of PFSs, and the forest.
//!
//! The crate has definitions and laws alone. A reading (`Access` of `h2_inode`) says how trees are read, be it from
//! the bytes of an image or from loaded nodes over one. `h2_inode` says which bytes a file's tree stands for, which
//! entries a directory's, and which list of PFSs the super-root's, whatever their trees hold. Over these,
//! `specs/Node` says which inodes a PFS's tree stands for, and `specs/Forest` which table, and which forest all of
//! the trees; the forest is the plain one of `h2_forest`, and each of its tables is a file tree of `h2_consistent`.
//! The laws stand on functions with empty bodies: a tree stands for one thing at most, and it stands for the same in
//! a second reading that gives whatever the first one gives (`specs/Following` of `h2_inode`). Two laws say so of
//! loaded nodes: one table and one forest at most stand in them, and they stand after loads and after changes of
//! other trees. After a change of one inode a table is the one before with this inode replaced, and a forest the one
//! before with the PFS replaced (`specs/Replaced`).
#![tactic(auto)]

mod change;
mod example;
mod laws;
mod loaded;
mod reading;
mod replaced;

pub use change::Change;
pub use example::{new_image_law, new_volume_law, one_block_law, one_entry_law};
pub use laws::{carry_law, image_law, leaf_law, one_meaning_law, order_law};
pub use loaded::{loaded_law, one_loaded_law};
pub use reading::Reading;
pub use replaced::replaced_law;

#[cfg(test)]
mod tests;
