//! What must hold of a reference that is put into a set, or for which a set is split.
ghost use Rattle.std.specs.Prelude.{◌≡◌, ◌+◌, ◌%◌, ◌^◌, ◌<◌, ◌≤◌, ◌↔◌, length, IsTrue};
ghost use Rattle.h2_ref.specs.declared.reference.Ref.{Ref};
ghost use Rattle.h2_set.specs.Ranges.{limit, Apart, IsApart, IsAligned, AllAligned, AllBelow, AllFrom, IsOneClass};

use crate::range::holds;
use h2_ref::Ref;

/// The keys of one class are all below this one ..
const LOW_KEYS_END: u64 = 1 << 62;
/// .. or none of them is below this one.
const HIGH_KEYS_START: u64 = 1 << 63;

/// Whether the ranges of two references have no key in common.
fn are_apart(r: &Ref, q: &Ref) -> bool
    ensures { IsTrue result ↔ Apart r.now q.now }
{
    if r.key <= q.key {
        return !holds(r, q.key);
    }
    !holds(q, r.key)
}

/// Whether the range of a reference is disjoint from all others.
pub(crate) fn is_apart(r: &Ref, refs: &[Ref]) -> bool
    ensures { IsTrue result ↔ IsApart r.now refs.now }
{
    for i in 0..refs.len() {
        if !are_apart(r, &refs[i]) {
            return false;
        }
    }
    true
}

/// Whether the range of a reference ends at 2^64 or before.
pub(crate) fn ends_in_keys(r: &Ref) -> bool
    ensures { IsTrue result ↔ (limit r.now ≤ 2 ^ 64) }
{
    if r.keybits > 64 {
        return false;
    }
    if r.keybits == 64 {
        return r.key == 0;
    }
    r.key <= u64::MAX - ((1u64 << r.keybits) - 1)
}

/// Whether the key of a reference is a multiple of the length of its range.
fn is_aligned(r: &Ref) -> bool
    ensures { IsTrue result ↔ IsAligned r.now }
{
    let key = r.key;
    if r.keybits >= 64 {
        return key == 0;
    }
    key % (1u64 << r.keybits) == 0
}

/// Whether the key of each reference is a multiple of the length of its range.
pub(crate) fn are_aligned(refs: &[Ref]) -> bool
    ensures { IsTrue result ↔ AllAligned refs.now }
{
    for i in 0..refs.len() {
        if !is_aligned(&refs[i]) {
            return false;
        }
    }
    true
}

/// Whether all keys are below this one.
fn are_below(refs: &[Ref], end: u64) -> bool
    ensures { IsTrue result ↔ AllBelow end refs.now }
{
    for i in 0..refs.len() {
        if refs[i].key >= end {
            return false;
        }
    }
    true
}

/// Whether no key is below this one.
fn are_from(refs: &[Ref], start: u64) -> bool
    ensures { IsTrue result ↔ AllFrom start refs.now }
{
    for i in 0..refs.len() {
        if refs[i].key < start {
            return false;
        }
    }
    true
}

/// Whether the keys are all below 2^62, or all at least 2^63.
pub(crate) fn are_one_class(refs: &[Ref]) -> bool
    ensures { IsTrue result ↔ IsOneClass refs.now }
{
    if are_below(refs, LOW_KEYS_END) {
        return true;
    }
    are_from(refs, HIGH_KEYS_START)
}
