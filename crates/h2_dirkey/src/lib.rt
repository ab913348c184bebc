//! Names of directories' entries, the keys that they have, and the blocks of long names.
//!
//! A name is a slice of bytes. Which names are good, and what is wrong first with one that isn't, are
//! definitions by cases (`specs/Name`). The key of a name is a function of its XXH64, and names whose keys
//! would be the same are told apart by the key's low 15 bits (`specs/Key`). The block of a long name is a
//! relation between the name and bytes (`specs/Block`). The names of PFSs have a rule of their own
//! (`specs/PfsName`).
#![tactic(auto)]

mod block;
mod key;
mod laws;
mod marks;
mod name;
mod name_fault;
mod pfs_name;

pub use block::{NAME_BLOCK_BYTES, name_block, name_matches};
pub use key::{is_key_of, key_of, pick};
pub use laws::{block_law, key_law, name_law};
pub use name::{NAME_BYTES, check_name};
pub use name_fault::NameFault;
pub use pfs_name::{PFS_NAME_BYTES, is_pfs_name};

#[cfg(test)]
mod tests;
