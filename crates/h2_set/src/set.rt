ghost use Rattle.std.specs.Prelude.{◌≡◌, ℕ, ◌+◌, ◌%◌, ◌<◌, ◌≤◌, ◌^◌, ◌⊎◌, ◌↔◌, [], length, slice_get, slice_set, filter, not, IsTrue, Some, IfSome, IfNone};
ghost use Rattle.std.specs.List.{position, remove};
ghost use Rattle.h2_ref.specs.declared.reference.Ref.{Ref};
ghost use Rattle.h2_set.specs.Ranges.{holds, IsPlaceOf, NoneHolds, put, limit, IsApart, IsAligned, AllAligned, IsOneClass, Rising, lies};
ghost use Rattle.h2_set.specs.RefSet.{RefSet, IsRefSet, IsSplitOf, Takes, Splits, rest_of, with_rest};

use crate::range::holds;
use crate::conditions::{are_aligned, are_one_class, ends_in_keys, is_apart};
use crate::split::{parts_of, place_for, with_one_more};
use arrayvec::ArrayVec;
use h2_ref::Ref;
use std::marker::Model;

/// How many references an indirect block has room for.
const BLOCK_CAPACITY: u8 = 32;

/// Whether a reference found room in a set.
#[derive(Clone, Copy, Debug, PartialEq, Eq)]
pub enum PutAnswer {
    /// It is in the set now.
    Placed,
    /// The set is at its capacity, and as it was.
    Full,
}

/// What a split takes out of a full set, and the reference that didn't fit.
#[derive(Drop)]
pub struct Split {
    /// The first key of the range.
    pub key: u64,
    /// The base-2 logarithm of the number of keys in the range.
    pub keybits: u8,
    /// The references of the range.
    pub moved: Set,
    /// The reference that was to be added, where it isn't among them.
    pub rest: Option<Ref>,
}

/// References with disjoint ranges in ascending order of keys, up to a capacity of 4 or 32.
#[derive(Drop)]
pub struct Set {
    refs: ArrayVec<Ref, 32>,
    capacity: u8,
}

impl Model for Set {
    ghost use Rattle.h2_set.specs.RefSet.{RefSet, IsRefSet};

    ghost Value = { RefSet };

    ghost view = { λ a. record { refs = a.refs.items; capacity = a.capacity } };

    ghost invariant = { λ a. IsRefSet (record { refs = a.refs.items; capacity = a.capacity }) };
}

impl Set {
    /// An empty set of this capacity, 4 or 32.
    pub fn new(capacity: u8) -> Set
        requires { (capacity ≡ 4) ⊎ (capacity ≡ 32) }
        ensures { result ≡ record { refs = []; capacity = capacity } }
    {
        Set {
            refs: ArrayVec::new(),
            capacity,
        }
    }

    /// How many references it has.
    pub fn len(&self) -> usize
        ensures len { result ≡ length self.now.refs }
        ensures set { IsRefSet self.now }
    {
        self.refs.len()
    }

    /// How many references it has room for.
    pub fn capacity(&self) -> u8
        ensures { result ≡ self.now.capacity }
    {
        self.capacity
    }

    /// Whether it has as many references as it has room for.
    pub fn is_full(&self) -> bool
        ensures full { IsTrue result ↔ (length self.now.refs ≡ self.now.capacity) }
    {
        self.refs.len() >= self.capacity as usize
    }

    /// The reference at a place below the length.
    pub fn at(&self, i: usize) -> &Ref
        requires { i < length self.now.refs }
        ensures { slice_get self.now.refs i ≡ Some result.now }
    {
        &self.refs[i]
    }

    /// The place of the reference whose range holds the key. None exactly where none does.
    pub fn find(&self, key: u64) -> Option<usize>
        ensures found { IfSome result (IsPlaceOf key self.now.refs) }
        ensures absent { IfNone result (NoneHolds key self.now.refs) }
    {
        place_in(&self.refs, key)
    }

    /// Whether a reference may be put in: its range is disjoint from all others and ends at 2^64 or before.
    pub fn takes(&self, r: &Ref) -> bool
        ensures takes { IsTrue result ↔ Takes self.now r.now }
    {
        if !is_apart(r, &self.refs) {
            return false;
        }
        ends_in_keys(r)
    }

    /// Whether the set may be split for a reference: it is full, the reference may be put in but for that, each key is a
    /// multiple of the length of its range, and the keys are all below 2^62 or all at least 2^63.
    pub fn splits(&self, r: &Ref) -> bool
        ensures splits { IsTrue result ↔ Splits self.now r.now }
    {
        if !self.is_full() {
            return false;
        }
        if !self.takes(r) {
            return false;
        }
        let all = with_one_more(&self.refs, *r);
        if !are_aligned(&all) {
            return false;
        }
        are_one_class(&all)
    }

    /// Adds a reference whose range is disjoint from all others and ends at 2^64 or before, in its order.
    /// Full exactly at capacity; then the set is as it was.
    pub fn put(&mut self, r: Ref) -> PutAnswer
        requires apart { IsApart r self.old.refs }
        requires small { limit r ≤ 2 ^ 64 }
        ensures answer { (result ≡ PutAnswer.Full) ↔ (length self.old.refs ≡ self.old.capacity) }
        ensures placed { result ≡ PutAnswer.Placed → self.new ≡ record self.old { refs = put r self.old.refs } }
        ensures full { result ≡ PutAnswer.Full → self.new ≡ self.old }
    {
        if self.refs.len() >= self.capacity as usize {
            return PutAnswer::Full;
        }
        let i = place_for(&self.refs, r.key);
        self.refs.insert(i, r);
        PutAnswer::Placed
    }

    /// Puts a reference in place of one with the same range, which is answered.
    pub fn swap(&mut self, i: usize, r: Ref) -> Ref
        requires within { i < length self.old.refs }
        requires same { (q : Ref) → slice_get self.old.refs i ≡ Some q → (q.key ≡ r.key) × (q.keybits ≡ r.keybits) }
        ensures old { slice_get self.old.refs i ≡ Some result }
        ensures new { self.new ≡ record self.old { refs = slice_set self.old.refs i r } }
    {
        let old = self.refs.remove(i);
        self.refs.insert(i, r);
        old
    }

    /// Takes a reference out.
    pub fn cut(&mut self, i: usize) -> Ref
        requires { i < length self.old.refs }
        ensures old { slice_get self.old.refs i ≡ Some result }
        ensures new { self.new ≡ record self.old { refs = remove self.old.refs i } }
    {
        self.refs.remove(i)
    }

    /// Splits a full set that shall take `r`. The references of the least aligned range of keys that holds at
    /// least half of them and `r`, rounded up, and of the lowest one on a tie, leave the set. The keys are all
    /// below 2^62 or all at least 2^63, and each reference's range is aligned.
    pub fn split(&mut self, r: Ref) -> Split
        requires full { length self.old.refs ≡ self.old.capacity }
        requires apart { IsApart r self.old.refs }
        requires small { limit r ≤ 2 ^ 64 }
        requires aligned { AllAligned (put r self.old.refs) }
        requires class { IsOneClass (put r self.old.refs) }
        ensures split { IsSplitOf (put r self.old.refs) result.key result.keybits }
        ensures moved { result.moved ≡ record { refs = filter (lies result.key result.keybits) (put r self.old.refs); capacity = 32 } }
        ensures rest { result.rest ≡ rest_of result.key result.keybits r }
        ensures stays { self.new ≡ record self.old { refs = filter (λ q. not (lies result.key result.keybits q)) self.old.refs } }
        ensures kept { with_rest result.rest self.new.refs ≡ filter (λ q. not (lies result.key result.keybits q)) (put r self.old.refs) }
    {
        let parts = parts_of(&self.refs, r);
        self.refs = parts.outer;
        Split {
            key: parts.key,
            keybits: parts.keybits,
            moved: Set {
                refs: parts.inner,
                capacity: BLOCK_CAPACITY,
            },
            rest: parts.rest,
        }
    }

    /// An equal set.
    pub fn copy(&self) -> Set
        ensures same { result ≡ self.now }
        ensures set { IsRefSet self.now }
    {
        Set {
            refs: copy_of(&self.refs),
            capacity: self.capacity,
        }
    }
}

fn copy_of(refs: &[Ref]) -> ArrayVec<Ref, 32>
    requires { length refs.now ≤ 32 }
    ensures { result.items ≡ refs.now }
{
    let mut copy = ArrayVec::new();
    for r in refs {
        copy.push(*r);
    }
    copy
}

fn place_in(refs: &[Ref], key: u64) -> Option<usize>
    ensures { result ≡ position (holds key) refs.now }
{
    refs.iter().position(|r| holds(r, key))
}
