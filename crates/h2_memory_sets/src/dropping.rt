//! Nodes below references that are lost.
ghost use Rattle.std.specs.Prelude.{◌≡◌, ◌&&◌, ◌||◌, ◌<◌, ℕ, false, IsTrue, length, slice_get, Some, if◌then◌else◌};
ghost use Rattle.h2_ref.specs.declared.reference.Ref.{Ref};
ghost use Rattle.h2_memory_sets.specs.declared.node.Node.{Node};
ghost use Rattle.h2_set.specs.Ranges.{holds};
ghost use Rattle.h2_set.specs.RefSet.{RefSet};
ghost use Rattle.h2_memory_sets.specs.View.{names_same, lacks, loses, goes, goes_with, lost, dropped_all};

use crate::node::Node;
use crate::owners::is_over_lost;
use h2_ref::Ref;
use h2_set::{Set, holds, is_indirect};

// Whether two references have one key, and both lead further down or neither.
fn names_same(q: &Ref, r: &Ref) -> bool
    ensures { result ≡ names_same q.now r.now }
{
    r.key == q.key
        && (if is_indirect(q) {
            is_indirect(r)
        } else {
            !is_indirect(r)
        })
}

// Whether no reference of a set has the key of `q`.
fn lacks(set: &Set, q: &Ref) -> bool
    ensures { result ≡ lacks set.now.refs q.now }
{
    for i in 0..set.len() {
        if names_same(q, set.at(i)) {
            return false;
        }
    }
    true
}

// Whether a reference whose range holds the key is missing in a set.
fn is_missing(q: &Ref, set: &Set, key: u64) -> bool
    ensures { result ≡ (holds key q.now && lacks set.now.refs q.now) }
{
    holds(q, key) && lacks(set, q)
}

/// Whether a reference of a set whose range holds the key is missing in another.
pub(crate) fn loses(old: &Set, new: &Set, key: u64) -> bool
    ensures { result ≡ loses old.now.refs new.now.refs key }
{
    for i in 0..old.len() {
        if is_missing(old.at(i), new, key) {
            return true;
        }
    }
    false
}

// Whether a place of a set has a reference with the key of `q`, which leads further down too or doesn't either.
fn stands_at(set: &Set, i: usize, q: &Ref) -> bool
    ensures { IsTrue result → lacks set.now.refs q.now ≡ false }
{
    if i >= set.len() {
        return false;
    }
    names_same(q, set.at(i))
}

// Whether a set has such a reference. It is looked for at place `i` and at the next first, where it stands unless
// the set has lost or won more than one before it.
fn has(set: &Set, i: usize, q: &Ref) -> bool
    ensures { IsTrue result → lacks set.now.refs q.now ≡ false }
{
    if stands_at(set, i, q) {
        return true;
    }
    if stands_at(set, i.saturating_add(1), q) {
        return true;
    }
    !lacks(set, q)
}

// Whether each reference of a set has one with its key in another, which leads further down too or doesn't either.
fn has_all(old: &Set, new: &Set) -> bool
    ensures { IsTrue result → (i : ℕ) (q : Ref) → slice_get old.now.refs i ≡ Some q → lacks new.now.refs q ≡ false }
{
    for i in 0..old.len() {
        if !has(new, i, old.at(i)) {
            return false;
        }
    }
    true
}

// Whether a node of the tree with this root, shorter than 2^bits, is below a reference that is missing.
fn goes(x: &Node, root: u32, bits: u8, old: &Set, new: &Set) -> bool
    ensures { result ≡ goes root bits old.now.refs new.now.refs x.now }
{
    x.root == root && (x.bits < bits && loses(old, new, x.low))
}

// Whether a node is below a reference that is missing, or belongs to what such a one leads to.
fn is_dropped(nodes: &[Node], i: usize, root: u32, bits: u8, old: &Set, new: &Set) -> bool
    requires { i < length nodes.now }
    ensures { (x : Node) → slice_get nodes.now i ≡ Some x → result ≡ (goes root bits old.now.refs new.now.refs x || goes_with nodes.now root old.now.refs new.now.refs x.root) }
{
    let x = &nodes[i];
    goes(x, root, bits, old, new) || is_over_lost(nodes, x.root as u64 + 1, x.root, root, old, new)
}

// Lets a node stand no longer, nor be loaded again, where it is dropped.
fn lose_one(x: &mut Node, is_dropped: bool)
    ensures { x.new ≡ if is_dropped then lost x.old else x.old }
{
    if is_dropped {
        x.loaded = false;
        x.up = None;
        x.inode = None;
    }
}

/// Drops what is below references that are in `old` and not in `new`, or belongs to what these lead to, where `old` is
/// the set of a node of the tree with this root, whose range has 2^bits keys.
pub(crate) fn drop_all(nodes: &mut [Node], root: u32, bits: u8, old: &Set, new: &Set)
    ensures { nodes.new ≡ dropped_all root bits old.now.refs new.now.refs nodes.old }
{
    if has_all(old, new) {
        return;
    }
    for i in 0..nodes.len() {
        let is_gone = is_dropped(nodes, i, root, bits, old, new);
        lose_one(&mut nodes[i], is_gone);
    }
}

/// Drops what is below references that the set of node `at` has and `new` hasn't, or belongs to what these lead to. The
/// node is one of the tree with this root, and its range has 2^bits keys. Its set is copied only where it loses some.
pub(crate) fn drop_lost(nodes: &mut [Node], at: usize, root: u32, bits: u8, new: &Set)
    requires { at < length nodes.old }
    ensures { (x : Node) → slice_get nodes.old at ≡ Some x → nodes.new ≡ dropped_all root bits (let s : RefSet = x.set in s.refs) new.now.refs nodes.old }
{
    let x = &nodes[at];
    if has_all(&x.set, new) {
        return;
    }
    let old = x.set.copy();
    drop_all(nodes, root, bits, &old, new);
}
