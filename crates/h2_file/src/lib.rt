//! The contents of a file in its blocks.
//!
//! A file of at most 512 bytes lies in its inode, and a longer one in blocks of 16 KiB, of which those that
//! no write reached are missing. Which blocks a write touches, and what it makes of the bytes of one of
//! them, is arithmetic and lists of bytes (`specs/Touching`, `LaysInto` in `h2_contents`).
//!
//! The blocks are named by content references in the file's tree, over any [`Nodes`](h2_inode::Nodes). `read_block`
//! finds the one that holds a byte, and `cut_blocks` takes out those from a size on. What they say of a file's list of
//! references, where it is known, is `find` and `cut_to` (`specs/Cutting`), of its bytes `FileHas`
//! (`specs/FileContents`), and of loaded paths, whatever is known of others, `Reaches`. A cut copies the lowest
//! node of which something goes, and those above it, and takes away what stood below the references that it cuts, and
//! nothing else (`CutsNodes`).
//!
//! `link_blocks` puts the references of new blocks in (`specs/Linking`): of the list it makes `put_each`, and of the bytes
//! those of the blocks in their places (`LinksBytes`). It is the chain of insertions that it says it is (`LinksNodes`).
//! Bytes that stood in the inode leave it for these blocks (`CoversBytes`). That the blocks which a write touches, with the
//! written bytes merged in, are such blocks of the written file, is `written_law`.
//!
//! The trees of all other roots stay, but for where blocks of inodes and indirect ones lie (`RenewsOthers` of `h2_inode`),
//! no root is new, and no bad block is met where the file's references are known.
#![tactic(auto)]

mod blocks;
mod cutting;
mod fault;
mod laws;
mod linking;
mod merging;
mod reading;
mod sizing;
mod touching;

pub use blocks::Touched;
pub use cutting::cut_blocks;
pub use fault::{FILE_BYTES, FileFault, check_end};
pub use laws::written_law;
pub use linking::link_blocks;
pub use merging::merge;
pub use reading::read_block;
pub use touching::{BLOCK_BYTES, EMBEDDED_BYTES, touched};

#[cfg(test)]
mod tests;
