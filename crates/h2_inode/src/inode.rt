ghost use Rattle.std.specs.Prelude.{◌↔◌, IsTrue};

use crate::kind::InodeKind;
use crate::pfs_name::PfsName;
use crate::rules::is_valid;
use h2_set::Set;

/// What the second half of an inode holds.
#[derive(Drop)]
pub enum Body {
    /// Up to four references.
    Refs(Set),
    /// A file's bytes, and zeros behind them.
    Bytes([u8; 512]),
}

/// A directory, a file or a PFS.
#[derive(Drop)]
pub struct Inode {
    /// What it stands for.
    pub kind: InodeKind,
    /// Its number; a PFS's id.
    pub number: u64,
    /// The entries of a directory, or the bytes of a file.
    pub size: u64,
    /// The entries that name it.
    pub links: u32,
    /// The next inode number of a PFS.
    pub next: u64,
    /// The name of a PFS.
    pub name: PfsName,
    /// What it holds.
    pub body: Body,
}

impl Inode {
    ghost use Rattle.h2_inode.specs.Inode.{IsInode};

    /// Whether it can be written: its fields, its name and its body are those of its kind.
    pub fn is_valid(&self) -> bool
        ensures { IsTrue result ↔ IsInode self.now }
    {
        is_valid(self)
    }
}
