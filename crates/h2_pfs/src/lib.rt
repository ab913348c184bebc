//! The PFSs of a volume: the leaves of the super-root's tree, and the inodes that they name.
//!
//! Over any [`Nodes`](h2_inode::Nodes), the super-root is a root whose tree has leaves of inodes alone
//! (`specs/SuperRoot`). Each call first loads all of its leaves and the inodes that they name (`Meets` in
//! `specs/Meets`), so its answer is that of the PFSs which were met. Where the tree is known to stand for a list of PFSs
//! (`HasPfss` in `specs/Listing`, over what is loaded and what blocks are told to hold), they are those of the list, and
//! afterwards the tree stands for the list that the call leaves. Each refusal comes exactly where its cause holds
//! (`specs/Faults`), and after it nothing but loads took place; where the list is known, no bad block is met. What all
//! trees stand for, those of files and directories too, stays over loads (`StandsAlike` in `h2_inode`), and over a change
//! of the list but for what goes (`KeepsTree` in `h2_inode`, `specs/Others`, [`others_law`]).
#![tactic(auto)]

mod adding;
mod fault;
mod finding;
mod laws;
mod met;
mod naming;
mod removing;
mod scanning;

pub use adding::pfs_add;
pub use fault::PfsFault;
pub use finding::pfs_find;
pub use laws::others_law;
pub use naming::pfs_names;
pub use removing::pfs_remove;
