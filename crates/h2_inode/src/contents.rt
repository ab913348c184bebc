ghost use Rattle.std.specs.Prelude.{◌≡◌, ◌↔◌, ◌≤◌, ◌<◌, ℕ, All, drop, length, slice_index, IsTrue, IfOk, IfErr, OnOk};
ghost use Rattle.h2_num.specs.Places.{places, from_place};
ghost use Rattle.h2_set.specs.SetBytes.{SetBytes, IsSetAt};
ghost use Rattle.h2_inode.specs.Inode.{IsLeafOf, IsPartOf, IsRootSet, keys_from, keys_end};
ghost use Rattle.h2_inode.specs.Fault.{IsRefsFault, LiesInBody, in_body};

use crate::fault::InodeFault;
use crate::kind::InodeKind;
use crate::layout::{BODY_BYTES, CONTENTS_AT, INODE_BYTES};
use h2_ref::{Kind, Ref};
use h2_set::{Set, SetFault, decode_set};

/// Where the keys of every tree but a directory's end.
const KEYS_END: u64 = 1 << 62;

/// The least key of a directory's tree.
const ENTRY_KEYS: u64 = 1 << 63;

/// Whether a leaf is one of the trees of a kind.
fn is_leaf_of(kind: InodeKind, size: u64, r: &Ref) -> bool
    ensures { IsTrue result ↔ IsLeafOf kind size r.now }
{
    match kind {
        InodeKind::Directory => r.kind == Kind::Dirent,
        InodeKind::File => r.kind == Kind::Content && r.key < size,
        InodeKind::Pfs => r.kind == Kind::Inode,
    }
}

/// Whether a key is one of the trees of a kind.
fn is_key_of(kind: InodeKind, key: u64) -> bool
    ensures { IsTrue result ↔ ((keys_from kind ≤ key) × (key < keys_end kind)) }
{
    match kind {
        InodeKind::Directory => key >= ENTRY_KEYS,
        InodeKind::File | InodeKind::Pfs => key < KEYS_END,
    }
}

/// Whether the tree of an inode may hold the reference.
fn is_part_of(kind: InodeKind, size: u64, r: &Ref) -> bool
    ensures { IsTrue result ↔ IsPartOf kind size r.now }
{
    if !is_key_of(kind, r.key) {
        return false;
    }
    if is_indirect(r) {
        return true;
    }
    is_leaf_of(kind, size, r)
}

/// Whether the reference names an indirect block.
fn is_indirect(r: &Ref) -> bool
    ensures { IsTrue result ↔ (r.now.kind ≡ Kind.Indirect) }
{
    r.kind == Kind::Indirect
}

/// Whether the tree of an inode may hold all references of the set.
pub fn are_parts_of(kind: InodeKind, size: u64, set: &Set) -> bool
    ensures { IsTrue result ↔ All (IsPartOf kind size) set.now.refs }
{
    for i in 0..set.len() {
        if !is_part_of(kind, size, set.at(i)) {
            return false;
        }
    }
    true
}

/// The bytes of the body.
fn contents_of(b: &[u8; INODE_BYTES]) -> &[u8]
    ensures bytes { places result.now ≡ from_place (places b.now) 512 }
    ensures len { length result.now ≡ 512 }
{
    b.split_at(CONTENTS_AT).1
}

/// A fault of the set in the body, as one of the block.
fn in_body(fault: SetFault) -> InodeFault
    requires { LiesInBody fault }
    ensures { result ≡ in_body fault }
{
    match fault {
        SetFault::Reference { at, fault } => InodeFault::Reference {
            at: CONTENTS_AT as u32 + at,
            fault,
        },
        SetFault::Shape => InodeFault::Shape,
    }
}

/// Shape, where the set that stands in the body isn't one of the kind.
fn check_own(kind: InodeKind, size: u64, b: &[u8; INODE_BYTES], set: &Set) -> Result<(), InodeFault>
    requires capacity { set.now.capacity ≡ 4 }
    requires found { IsSetAt 4 set.now.refs (from_place (places b.now) 512) }
    ensures fits { OnOk result (IsRootSet kind size set.now.refs) }
    ensures fault { IfErr result (IsRefsFault kind size (from_place (places b.now) 512)) }
{
    if are_parts_of(kind, size, set) {
        Ok(())
    } else {
        Err(InodeFault::Shape)
    }
}

/// The references of a body. The error is the first that is refused, or else Shape, where they aren't those
/// of an inode of this kind and size.
pub fn refs_of(kind: InodeKind, size: u64, b: &[u8; INODE_BYTES]) -> Result<Set, InodeFault>
    ensures capacity { IfOk result (λ s. s.capacity ≡ 4) }
    ensures fits { IfOk result (λ s. IsRootSet kind size s.refs) }
    ensures bytes { IfOk result (λ s. SetBytes 4 s.refs (from_place (places b.now) 512)) }
    ensures fault { IfErr result (IsRefsFault kind size (from_place (places b.now) 512)) }
{
    match decode_set(contents_of(b)) {
        Ok(set) => match check_own(kind, size, b, &set) {
            Ok(()) => Ok(set),
            Err(fault) => Err(fault),
        },
        Err(fault) => Err(in_body(fault)),
    }
}

/// A file's bytes and the zeros behind them.
pub fn bytes_of(b: &[u8; INODE_BYTES]) -> [u8; BODY_BYTES]
    ensures len { length result ≡ 512 }
    ensures bytes { (k : ℕ) → k < 512 → from_place (places b.now) 512 k ≡ slice_index result k }
{
    let mut bytes = [0; BODY_BYTES];
    bytes.copy_from_slice(contents_of(b));
    bytes
}
