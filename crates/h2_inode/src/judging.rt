ghost use Rattle.std.specs.Prelude.{◌≡◌, ◌↔◌, ◌<◌, ◌≤◌, ℕ, List, length, take, IsTrue, MatchOption, IfSome, Some, None};
ghost use Rattle.h2_num.specs.Places.{places};
ghost use Rattle.h2_ref.specs.declared.reference.Ref.{Ref};
ghost use Rattle.h2_ref.specs.Ref.{IsValid, size_of};
ghost use Rattle.h2_inode.specs.declared.inode.Inode.{Inode};
ghost use Rattle.h2_set.specs.SetBytes.{IsSetAt};
ghost use Rattle.h2_inode.specs.Inode.{IsInode, InodeBytes};
ghost use Rattle.h2_inode.specs.Block.{HasCheck, IsArranged, IsNameOf, Passes, name_len};
ghost use Rattle.h2_inode.specs.Cause.{why_of, why_of_set, IsInodeCause, IsSetCause, IsNameCause, IsSpellingCause, IsCauseOf};

use crate::arrangement::is_arranged;
use crate::block_check::check_of;
use crate::decoding::decode_inode;
use crate::fault::InodeFault;
use crate::inode::Inode;
use crate::layout::INODE_BYTES;
use h2_dirkey::{NAME_BLOCK_BYTES, is_key_of, name_matches};
use h2_ref::{Check, Kind, Ref, Why};
use h2_set::{SetFault, decode_set};

/// A fault of an inode's bytes, as one of the block.
fn why_of(fault: InodeFault) -> Why
    ensures { result ≡ why_of fault }
{
    match fault {
        InodeFault::Reference { at, fault } => Why::Reference { at, fault },
        InodeFault::Shape => Why::Shape,
        InodeFault::Kind(_)
        | InodeFault::Body
        | InodeFault::Links(_)
        | InodeFault::Number
        | InodeFault::Size(_)
        | InodeFault::Next
        | InodeFault::Name
        | InodeFault::Padding(_) => Why::Inode,
    }
}

/// A fault of a set's bytes, as one of the block.
fn why_of_set(fault: SetFault) -> Why
    ensures { result ≡ why_of_set fault }
{
    match fault {
        SetFault::Reference { at, fault } => Why::Reference { at, fault },
        SetFault::Shape => Why::Shape,
    }
}

/// Whether the reference has the check.
fn has_check(r: &Ref, check: Check) -> bool
    ensures { IsTrue result ↔ (r.now.check ≡ check) }
{
    r.check == check
}

/// Whether the inode has the number.
fn has_number(inode: &Inode, number: u64) -> bool
    ensures { IsTrue result ↔ (inode.now.number ≡ number) }
{
    inode.number == number
}

/// Why the bytes aren't the inode with the number; None where they are.
fn judge_inode(number: u64, b: &[u8; INODE_BYTES]) -> Option<Why>
    ensures { MatchOption result ((i : Inode) × IsInode i × InodeBytes i (places b.now) × (i.number ≡ number))
        (IsInodeCause number (places b.now)) }
{
    match decode_inode(b) {
        Ok(inode) => {
            if has_number(&inode, number) {
                None
            } else {
                Some(Why::Inode)
            }
        }
        Err(fault) => Some(why_of(fault)),
    }
}

/// Why the bytes aren't references that the block of the indirect reference `r` may hold; None where they are.
fn judge_set(r: &Ref, b: &[u8]) -> Option<Why>
    requires keybits { r.now.keybits < 64 }
    requires size { length b.now ≡ 4096 }
    ensures { MatchOption result ((refs : List Ref) × IsSetAt 32 refs (places b.now) × IsArranged r.now refs)
        (IsSetCause r.now (places b.now)) }
{
    match decode_set(b) {
        Ok(set) => {
            if is_arranged(r, &set) {
                None
            } else {
                Some(Why::Shape)
            }
        }
        Err(fault) => Some(why_of_set(fault)),
    }
}

/// The length of an entry's name, or 0 where there is none.
fn name_len(r: &Ref) -> usize
    ensures { result ≡ name_len r.now.dirent }
{
    match r.dirent {
        Some(entry) => entry.len as usize,
        None => 0,
    }
}

/// The first bytes of a name's block.
fn name_in(b: &[u8; NAME_BLOCK_BYTES], len: usize) -> &[u8]
    requires { len ≤ 1024 }
    ensures { result.now ≡ take len b.now }
{
    b.split_at(len).0
}

/// Why the bytes aren't the name of the entry `r`; None where they are.
fn judge_name(r: &Ref, b: &[u8; NAME_BLOCK_BYTES]) -> Option<Why>
    requires { name_len r.now.dirent ≤ 255 }
    ensures { MatchOption result ((name : List ℕ) × IsNameOf r.now (places b.now) name)
        (IsNameCause r.now (places b.now)) }
{
    let name = name_in(b, name_len(r));
    if !is_key_of(r.key, name) {
        return Some(Why::Name);
    }
    if !name_matches(b, name) {
        return Some(Why::Name);
    }
    None
}

/// The bytes of a block of 1 KiB.
fn small_block(b: &[u8]) -> &[u8; INODE_BYTES]
    requires { length b.now ≡ 1024 }
    ensures { result.now ≡ b.now }
{
    let Some((bytes, _)) = b.split_first_chunk::<INODE_BYTES>() else {
        unreachable!();
    };
    bytes
}

/// Why a block isn't spelled for the reference whose check it has; None where it is.
fn judge_spelling(r: &Ref, b: &[u8]) -> Option<Why>
    requires valid { IsValid r.now }
    requires block { 0 < r.now.radix }
    requires no_node { r.now.kind ≡ Kind.MapNode → ⊥ }
    requires no_leaf { r.now.kind ≡ Kind.MapLeaf → ⊥ }
    requires size { length b.now ≡ size_of r.now }
    requires check { HasCheck r.now (length b.now) (places b.now) }
    ensures { MatchOption result (Passes r.now (places b.now)) (IsSpellingCause r.now.kind r.now (places b.now)) }
{
    match r.kind {
        Kind::Inode => judge_inode(r.key, small_block(b)),
        Kind::Indirect => judge_set(r, b),
        Kind::Content => None,
        Kind::Dirent => judge_name(r, small_block(b)),
        Kind::Empty | Kind::MapNode | Kind::MapLeaf => unreachable!(),
    }
}

/// Why the bytes aren't the block that the reference names: None exactly where they have its check and are
/// spelled for its kind, and else the first cause. `Check` comes first. Then for an inode `Reference` and
/// `Shape` are those of `decode_inode`, and `Inode` is every other fault and a number that isn't the key. For an
/// indirect block `Reference` is the first reference that isn't decoded, and `Shape` that they are no set, that
/// there is none, or one that doesn't lie in the range of the reference or is indirect without fewer keybits.
/// For the block of a long name `Name` is a nonzero byte behind the entry's length, a name that isn't good, and
/// a key without the upper bits of the name's keys. A content block has no cause but `Check`.
///
/// The reference is valid, has a block of `b.len()` bytes, and isn't one of the freemap.
pub fn judge(r: &Ref, b: &[u8]) -> Option<Why>
    requires valid { IsValid r.now }
    requires block { 0 < r.now.radix }
    requires no_node { r.now.kind ≡ Kind.MapNode → ⊥ }
    requires no_leaf { r.now.kind ≡ Kind.MapLeaf → ⊥ }
    requires size { length b.now ≡ size_of r.now }
    ensures passes { (result ≡ None) ↔ Passes r.now (places b.now) }
    ensures why { IfSome result (IsCauseOf r.now (places b.now)) }
{
    let got = check_of(r.kind, b);
    if !has_check(r, got) {
        return Some(Why::Check { want: r.check, got });
    }
    judge_spelling(r, b)
}
