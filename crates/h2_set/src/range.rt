ghost use Rattle.std.specs.Prelude.{◌≡◌, ◌<◌};
ghost use Rattle.h2_set.specs.Ranges.{holds, is_indirect, lies};

use h2_ref::{Kind, Ref};

/// Whether a reference names an indirect block. Any other is a leaf.
pub fn is_indirect(r: &Ref) -> bool
    ensures { result ≡ is_indirect r.now }
{
    match r.kind {
        Kind::Indirect => true,
        Kind::Empty | Kind::Inode | Kind::Content | Kind::Dirent | Kind::MapNode | Kind::MapLeaf =>
            false,
    }
}

/// Whether the range of a reference holds the key.
pub fn holds(r: &Ref, key: u64) -> bool
    ensures { result ≡ holds key r.now }
{
    r.key <= key && (r.keybits >= 64 || (key - r.key) >> r.keybits == 0)
}

/// Whether a reference lies in the range of 2^bits keys from `key` on.
pub(crate) fn lies_in(r: &Ref, key: u64, bits: u8) -> bool
    requires { bits < 64 }
    ensures { result ≡ lies key bits r.now }
{
    if r.key < key {
        return false;
    }
    if r.keybits > bits {
        return false;
    }
    r.key - key <= (1u64 << bits) - (1u64 << r.keybits)
}
