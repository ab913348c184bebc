ghost use Rattle.std.specs.Prelude.{◌≡◌};
ghost use Rattle.h2_inode.specs.Limits.{limits_of};

use crate::kind::InodeKind;
use h2_ref::Span;

/// What the fields of an inode of one kind may hold.
#[derive(Clone, Copy)]
pub struct Limits {
    /// Its links.
    pub links: Span,
    /// Its size: the entries of a directory, the bytes of a file.
    pub sizes: Span,
    /// The next inode number of a PFS.
    pub nexts: Span,
}

/// The numbers of inodes and of PFSs.
pub const NUMBERS: Span = Span {
    least: 1,
    last: (1 << 62) - 1,
};

const ZERO: Span = Span { least: 0, last: 0 };

const ONE: Span = Span { least: 1, last: 1 };

/// The limits of a kind.
pub fn limits_of(kind: InodeKind) -> Limits
    ensures { result ≡ limits_of kind }
{
    match kind {
        InodeKind::Directory => Limits {
            links: ONE,
            sizes: Span {
                least: 0,
                last: 4096,
            },
            nexts: ZERO,
        },
        InodeKind::File => Limits {
            links: Span {
                least: 0,
                last: 65535,
            },
            sizes: Span {
                least: 0,
                last: 1 << 40,
            },
            nexts: ZERO,
        },
        InodeKind::Pfs => Limits {
            links: ONE,
            sizes: ZERO,
            nexts: Span {
                least: 2,
                last: 1 << 62,
            },
        },
    }
}
