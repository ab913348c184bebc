ghost use Rattle.std.specs.Prelude.{◌↔◌, All, IsTrue};
ghost use Rattle.h2_num.specs.Places.{places, ZeroIn};
ghost use Rattle.h2_set.specs.SetBytes.{IsHeld};
ghost use Rattle.h2_inode.specs.Head.{IsNameOf};
ghost use Rattle.h2_inode.specs.declared.inode.Body.TheVariants.{Refs, Bytes};
ghost use Rattle.h2_inode.specs.Inode.{IsRootSet, BodyFits, IsInode};

use crate::contents::are_parts_of;
use crate::head::{EMBEDDED_BYTES, body_of};
use crate::inode::{Body, Inode};
use crate::kind::InodeKind;
use crate::layout::BODY_BYTES;
use crate::limits::{NUMBERS, limits_of};
use h2_dirkey::is_pfs_name;
use h2_num::first_nonzero;
use h2_ref::in_span;
use h2_set::{Set, is_held};

/// The references that a body has room for.
const BODY_REFS: u8 = 4;

/// Whether an inode of the kind may have the name: only a PFS has one.
fn name_fits(kind: InodeKind, name: &[u8]) -> bool
    ensures { IsTrue result ↔ IsNameOf kind name.now }
{
    match kind {
        InodeKind::Directory | InodeKind::File => name.is_empty(),
        InodeKind::Pfs => is_pfs_name(name),
    }
}

/// Whether a set may hold all references of this one.
fn are_held(set: &Set) -> bool
    ensures { IsTrue result ↔ All IsHeld set.now.refs }
{
    for i in 0..set.len() {
        if !is_held(set.at(i)) {
            return false;
        }
    }
    true
}

/// Whether the set may be that of an inode of the kind and size.
fn is_root_set(kind: InodeKind, size: u64, set: &Set) -> bool
    ensures { IsTrue result ↔ IsRootSet kind size set.now.refs }
{
    // For the proof alone: the contract of `len` tells that the references of a set ascend.
    let _len = set.len();
    are_held(set) && are_parts_of(kind, size, set)
}

/// Whether the set may be the body of an inode of the kind and size.
fn refs_fit(kind: InodeKind, size: u64, set: &Set) -> bool
    ensures { IsTrue result ↔ BodyFits kind size (Refs set.now) }
{
    body_of(kind, size) == 0 && set.capacity() == BODY_REFS && is_root_set(kind, size, set)
}

/// Whether zeros follow the bytes of a file of this size, which is at most that of the body.
fn ends_in_zeros(size: u64, bytes: &[u8; BODY_BYTES]) -> bool
    ensures { IsTrue result ↔ ZeroIn size 512 (places bytes.now) }
{
    size > EMBEDDED_BYTES || first_nonzero(bytes, size as usize, BODY_BYTES).is_none()
}

/// Whether the bytes may be the body of an inode of the kind and size.
fn bytes_fit(kind: InodeKind, size: u64, bytes: &[u8; BODY_BYTES]) -> bool
    ensures { IsTrue result ↔ BodyFits kind size (Bytes bytes.now) }
{
    body_of(kind, size) == 1 && ends_in_zeros(size, bytes)
}

/// Whether an inode of the kind and size may have the body.
fn body_fits(kind: InodeKind, size: u64, body: &Body) -> bool
    ensures { IsTrue result ↔ BodyFits kind size body.now }
{
    match body {
        Body::Refs(set) => refs_fit(kind, size, set),
        Body::Bytes(bytes) => bytes_fit(kind, size, bytes),
    }
}

/// Whether all fields, the name and the body are those of the kind.
pub fn is_valid(i: &Inode) -> bool
    ensures { IsTrue result ↔ IsInode i.now }
{
    in_span(limits_of(i.kind).links, i.links as u64)
        && in_span(NUMBERS, i.number)
        && in_span(limits_of(i.kind).sizes, i.size)
        && in_span(limits_of(i.kind).nexts, i.next)
        && name_fits(i.kind, i.name.as_slice())
        && body_fits(i.kind, i.size, &i.body)
}
