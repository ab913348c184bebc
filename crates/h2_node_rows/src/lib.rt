//! Inodes and the list of PFSs at work, as tests of [`Nodes`](h2_inode::Nodes) and `h2_pfs` over sets in memory. They show
//! what no contract says: that ample memory is enough, that what was unloaded is found again, and which load fails how.
//! What the list holds is compared with a plain list after each call.
//!
//! The super-root in memory with which these tests begin is here too, for the tests of files and of directories
//! (`h2_file_rows`, `h2_dir_rows`), with the laws that it stays one.
#![tactic(auto)]

mod super_roots;
#[cfg(test)]
mod tests;

pub use super_roots::{BLOCK_PLACE, INODE_PLACE, numbered_leaf, super_root};
