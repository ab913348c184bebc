use h2_inode::Inode;
use h2_set::Set;

/// Which keys the leaves of a tree have.
#[derive(Clone, Copy, Debug, PartialEq, Eq)]
pub enum KeyClass {
    /// Keys below 2^62: those of contents, of inodes and of the list of PFSs.
    Low,
    /// Keys of at least 2^63: those of a directory's entries.
    High,
}

/// The leaf that names the root of an inode.
#[derive(Clone, Copy)]
pub(crate) struct Owner {
    /// The root of the leaf's tree.
    pub root: u32,
    pub key: u64,
}

/// Which leaves a tree may have whose root isn't that of an inode.
#[derive(Clone, Copy)]
pub(crate) enum Leaves {
    /// Every leaf but those that name inodes.
    Any,
    /// Those that name inodes, and can be written.
    Inodes,
}

/// A node of a forest.
#[derive(Drop)]
pub(crate) struct Node {
    pub set: Set,
    /// Whether it is loaded; a node that isn't doesn't stand.
    pub loaded: bool,
    /// The node above it. A root has none.
    pub up: Option<u32>,
    pub root: u32,
    /// Its range: the first key, and the base-2 logarithm of its length.
    pub low: u64,
    pub bits: u8,
    /// Whether it is writable in this epoch.
    pub dirty: bool,
    /// How many nodes from this one up to below the root aren't writable.
    pub copies: u64,
    /// Of a root, the keybits of its tree's leaves.
    pub leaf_bits: u8,
    /// Of the root of an inode, the inode; its set is the node's.
    pub inode: Option<Inode>,
    /// Of the root of an inode, the leaf that names it.
    pub owner: Option<Owner>,
    /// Whether a root is held.
    pub held: bool,
    /// Of a root without an inode, which leaves its tree may have.
    pub leaves: Leaves,
}

/// A node's tree and its range.
#[derive(Clone, Copy)]
pub(crate) struct Place {
    pub root: u32,
    pub low: u64,
    pub bits: u8,
}
