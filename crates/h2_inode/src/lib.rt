//! Inodes, and their 1024 bytes.
//!
//! An inode is a directory, a file or a PFS. What each kind allows is a table (`specs/Limits`) and a rule for
//! its references (`specs/Inode`), its bytes are a relation with a clause for each field and each gap, and bytes
//! that spell none meet a first refusal, which the bytes tell (`specs/Head`, `specs/Fault`). When a block passes
//! the reference that names it is one definition for all kinds of files and directories (`Passes` in
//! `specs/Block`).
//!
//! A reading (`specs/Access`) says how trees of inodes are read, be it from the bytes of an image or from loaded nodes.
//! Over any reading, `specs/Contents` says which bytes a file's tree stands for, `specs/Directory` which entries a
//! directory's, and `specs/PfsList` which list of PFSs the super-root's.
//!
//! [`Nodes`] is a forest of sets whose roots are those of inodes (`specs/Nodes`): which leaf names a root, what a
//! root holds beside its set, and one relation for each call.
#![tactic(auto)]

mod arrangement;
mod block_check;
mod bytes_laws;
mod contents;
mod decoding;
mod encoding;
mod fault;
mod head;
mod inode;
mod judging;
mod kind;
mod laws;
mod layout;
mod limits;
mod loaded_laws;
mod nodes;
mod others_laws;
mod pfs_name;
mod rules;

pub use block_check::check_of;
pub use bytes_laws::bytes_law;
pub use decoding::decode_inode;
pub use encoding::encode_inode;
pub use fault::InodeFault;
pub use inode::{Body, Inode};
pub use judging::judge;
pub use kind::InodeKind;
pub use laws::{
    cause_law, inode_law, inode_or_refusal_law, nodes_law, passing_law, paths_law, refusal_law,
    visits_law,
};
pub use layout::INODE_BYTES;
pub use loaded_laws::{
    contents_apart_law, leaves_law, loads_law, naming_law, one_reading_law, rereading_law,
    worked_law,
};
pub use nodes::Nodes;
pub use others_laws::others_law;
pub use pfs_name::PfsName;
