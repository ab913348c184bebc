ghost use Rattle.std.specs.Prelude.{◌≡◌, ◌<◌, ◌↔◌, IsTrue};

use crate::rules::is_valid;

/// What a reference names.
#[derive(Clone, Copy, Debug, PartialEq, Eq)]
pub enum Kind {
    /// Nothing: all its bytes are zero.
    Empty,
    /// An inode's block of 1 KiB.
    Inode,
    /// A block of 4 KiB with references to what is below.
    Indirect,
    /// A block of 16 KiB with a part of a file's contents.
    Content,
    /// An entry of a directory; a name of more than 64 bytes has a block of 1 KiB.
    Dirent,
    /// A node of the freemap, a block of 1 KiB with references to nodes or leaves.
    MapNode,
    /// The leaf of a zone in the freemap, a block of 1 KiB.
    MapLeaf,
}

/// The check of the bytes of a block.
#[derive(Clone, Copy, Debug, PartialEq, Eq)]
pub enum Check {
    /// There is none.
    Nothing,
    /// CRC-32C.
    Crc(u32),
    /// XXH64 with seed 0.
    Xx(u64),
}

/// What an entry of a directory says beside its key.
#[derive(Clone, Copy, Debug, PartialEq, Eq)]
pub struct Dirent {
    /// The number of the inode that it names.
    pub number: u64,
    /// The length of its name in bytes.
    pub len: u16,
    /// What it names: 1 for a directory, 2 for a file.
    pub target: u8,
    /// A name of at most 64 bytes, then zeros; all zeros for a longer name, which stands in a block.
    pub name: [u8; 64],
}

/// A reference to a block, or an entry of a directory that needs none.
#[derive(Clone, Copy, Debug, PartialEq, Eq)]
pub struct Ref {
    /// What it names.
    pub kind: Kind,
    /// The first key of its range.
    pub key: u64,
    /// The base-2 logarithm of the number of keys in its range.
    pub keybits: u8,
    /// The place of the block's first byte on the disk, or 0 where there is no block.
    pub place: u64,
    /// The base-2 logarithm of the block's size in bytes, or 0 where there is no block.
    pub radix: u8,
    /// The number of the checkpoint that wrote it.
    pub id: u64,
    /// The check of the block's bytes.
    pub check: Check,
    /// What an entry of a directory says; None for every other kind.
    pub dirent: Option<Dirent>,
}

impl Ref {
    ghost use Rattle.h2_ref.specs.Ref.{empty_ref, size_of, IsValid};

    /// The empty reference.
    pub fn empty() -> Ref
        ensures { result ≡ empty_ref }
    {
        Ref {
            kind: Kind::Empty,
            key: 0,
            keybits: 0,
            place: 0,
            radix: 0,
            id: 0,
            check: Check::Nothing,
            dirent: None,
        }
    }

    /// Whether the table of kinds allows it.
    pub fn valid(&self) -> bool
        ensures { IsTrue result ↔ IsValid self.now }
    {
        is_valid(self)
    }

    /// The size of the block in bytes, or 0 where there is no block. The radix is below 32.
    pub fn size(&self) -> u32
        requires { self.now.radix < 32 }
        ensures { result ≡ size_of self.now }
    {
        if self.radix == 0 { 0 } else { 1 << self.radix }
    }
}

/// What fills the free places of a vector of fixed capacity: the empty reference.
impl Default for Ref {
    ghost use Rattle.h2_ref.specs.Ref.{empty_ref};

    ghost is_default = { λ r. r ≡ empty_ref };

    /// The empty reference.
    fn default() -> Ref {
        Ref::empty()
    }
}
