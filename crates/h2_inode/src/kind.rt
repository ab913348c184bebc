ghost use Rattle.std.specs.Prelude.{◌≡◌, MatchOption};
ghost use Rattle.h2_inode.specs.Kind.{kind_byte};
ghost use Rattle.h2_inode.specs.declared.kind.InodeKind.{InodeKind};

/// What an inode stands for.
#[derive(Clone, Copy, Debug, PartialEq, Eq)]
pub enum InodeKind {
    /// A directory.
    Directory,
    /// A file.
    File,
    /// A file system of its own, with the inodes of its table below it.
    Pfs,
}

/// The number of a kind.
pub fn kind_byte(kind: InodeKind) -> u8
    ensures { result ≡ kind_byte kind }
{
    match kind {
        InodeKind::Directory => 1,
        InodeKind::File => 2,
        InodeKind::Pfs => 3,
    }
}

/// The kind with a number; None where there is none.
pub fn kind_of(number: u8) -> Option<InodeKind>
    ensures { MatchOption result ((kind : InodeKind) → number ≡ kind_byte kind → ⊥) (λ kind. number ≡ kind_byte kind) }
{
    match number {
        1 => Some(InodeKind::Directory),
        2 => Some(InodeKind::File),
        3 => Some(InodeKind::Pfs),
        _ => None,
    }
}
