//! Where a full set is split.
ghost use Rattle.std.specs.Prelude.{◌≡◌, ℕ, ◌+◌, ◌*◌, ◌/◌, ◌^◌, ◌<◌, ◌≤◌, nat_lt, List, Some, length, slice_get, count_by, filter, not, IfSome, IfNone};
ghost use Rattle.h2_ref.specs.declared.reference.Ref.{Ref};
ghost use Rattle.std.specs.List.{take_while};
ghost use Rattle.h2_set.specs.Ranges.{lies, limit, put, IsApart, IsOneClass, Rising, AllAligned};
ghost use Rattle.h2_set.specs.RefSet.{HoldsHalf, IsRefSet, IsSplitOf, rest_of, with_rest};

use crate::range::lies_in;
use arrayvec::ArrayVec;
use h2_ref::Ref;

// How many references lie in the range.
fn count_in(all: &[Ref], key: u64, bits: u8) -> usize
    requires { bits < 64 }
    ensures { result ≡ count_by (lies key bits) all.now }
{
    all.iter().filter(|r| lies_in(r, key, bits)).count()
}

// The lowest aligned range of this length that holds half of the references.
fn half_range(all: &[Ref], bits: u8) -> Option<u64>
    requires bits { bits < 64 }
    requires few { (0 < length all.now) × (length all.now < 1000) }
    requires rising { Rising 0 (2 ^ 64) all.now }
    ensures found { IfSome result (λ key. HoldsHalf all.now key bits × ((k : ℕ) → HoldsHalf all.now k bits → key ≤ k)) }
    ensures none { IfNone result ((k : ℕ) → HoldsHalf all.now k bits → ⊥) }
{
    let half = (all.len() + 1) / 2;
    for r in all {
        let key = floor(r.key, bits);
        if count_in(all, key, bits) >= half {
            return Some(key);
        }
    }
    None
}

// The last multiple of the length up to a key.
fn floor(key: u64, bits: u8) -> u64
    requires { bits < 64 }
    ensures { result ≡ key / 2 ^ bits * 2 ^ bits }
{
    key / (1u64 << bits) * (1u64 << bits)
}

/// The range by which references are split: the least aligned one that holds half of them, and the lowest.
pub(crate) fn least_range(all: &[Ref]) -> (u64, u8)
    requires few { (3 ≤ length all.now) × (length all.now < 1000) }
    requires rising { Rising 0 (2 ^ 64) all.now }
    requires aligned { AllAligned all.now }
    requires class { IsOneClass all.now }
    ensures split { IsSplitOf all.now result.0 result.1 }
    ensures bits { result.1 < 64 }
{
    for bits in 0..63u8 {
        if let Some(key) = half_range(all, bits) {
            return (key, bits);
        }
    }
    unreachable!()
}

/// The references that lie in the range, at most 32.
fn lying_in(all: &[Ref], key: u64, bits: u8) -> ArrayVec<Ref, 32>
    requires bits { bits < 64 }
    requires few { count_by (lies key bits) all.now ≤ 32 }
    ensures items { result.items ≡ filter (lies key bits) all.now }
    ensures fits { length result.items ≤ 32 }
{
    let mut inner = ArrayVec::new();
    for r in all {
        if lies_in(r, key, bits) {
            inner.push(*r);
        }
    }
    inner
}

/// The references that don't lie in the range, of at most 32.
fn lying_outside(all: &[Ref], key: u64, bits: u8) -> ArrayVec<Ref, 32>
    requires bits { bits < 64 }
    requires few { length all.now ≤ 32 }
    ensures items { result.items ≡ filter (λ q. not (lies key bits q)) all.now }
    ensures fits { length result.items ≤ length all.now }
{
    let mut outer = ArrayVec::new();
    for r in all {
        if !lies_in(r, key, bits) {
            outer.push(*r);
        }
    }
    outer
}

/// What a split makes of references and one more.
#[derive(Drop)]
pub(crate) struct Parts {
    pub key: u64,
    pub keybits: u8,
    /// The references of the range.
    pub inner: ArrayVec<Ref, 32>,
    /// The others, but for the one more.
    pub outer: ArrayVec<Ref, 32>,
    /// The one more, where it is outside.
    pub rest: Option<Ref>,
}

/// Splits references and one more by the split rule.
pub(crate) fn parts_of(refs: &[Ref], r: Ref) -> Parts
    requires few { (4 ≤ length refs.now) × (length refs.now ≤ 32) }
    requires rising { Rising 0 (2 ^ 64) refs.now }
    requires apart { IsApart r refs.now }
    requires small { limit r ≤ 2 ^ 64 }
    requires aligned { AllAligned (put r refs.now) }
    requires class { IsOneClass (put r refs.now) }
    ensures split { IsSplitOf (put r refs.now) result.key result.keybits }
    ensures inner { result.inner.items ≡ filter (lies result.key result.keybits) (put r refs.now) }
    ensures inner_set { IsRefSet (record { refs = result.inner.items; capacity = 32 }) }
    ensures outer { result.outer.items ≡ filter (λ q. not (lies result.key result.keybits q)) refs.now }
    ensures outer_few { length result.outer.items ≤ length refs.now }
    ensures outer_rising { Rising 0 (2 ^ 64) result.outer.items }
    ensures rest { result.rest ≡ rest_of result.key result.keybits r }
    ensures kept { with_rest result.rest result.outer.items ≡ filter (λ q. not (lies result.key result.keybits q)) (put r refs.now) }
{
    let all = with_one_more(refs, r);
    let (key, keybits) = least_range(&all);
    Parts {
        key,
        keybits,
        inner: lying_in(&all, key, keybits),
        outer: lying_outside(refs, key, keybits),
        rest: left_over(r, key, keybits),
    }
}

/// The reference, where it doesn't lie in the range.
fn left_over(r: Ref, key: u64, bits: u8) -> Option<Ref>
    requires { bits < 64 }
    ensures { result ≡ rest_of key bits r }
{
    if lies_in(&r, key, bits) {
        None
    } else {
        Some(r)
    }
}

/// The references with one more in its order.
pub(crate) fn with_one_more(refs: &[Ref], r: Ref) -> ArrayVec<Ref, 33>
    requires few { length refs.now ≤ 32 }
    requires apart { IsApart r refs.now }
    ensures { result.items ≡ put r refs.now }
{
    let mut all = ArrayVec::new();
    for q in refs {
        all.push(*q);
    }
    let i = place_for(refs, r.key);
    all.insert(i, r);
    all
}

/// How many references at the front have smaller keys.
pub(crate) fn place_for(refs: &[Ref], key: u64) -> usize
    ensures { result ≡ length (take_while (λ q. nat_lt q.key key) refs.now) }
{
    refs.iter().take_while(|q| q.key < key).count()
}
