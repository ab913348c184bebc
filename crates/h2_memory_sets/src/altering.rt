//! Nodes that become writable, and how many above each aren't.
ghost use Rattle.std.specs.Prelude.{◌≡◌, ◌&&◌, ◌||◌, ◌+◌, ◌^◌, ◌<◌, nat_le, nat_lt, true, false, IsTrue, length, slice_get, Some};
ghost use Rattle.h2_memory_sets.specs.declared.node.Node.{Node};
ghost use Rattle.h2_memory_sets.specs.View.{is_above, is_over, place_of, range_of, with_dirty, with_copies, marked_all, cleaned_all, is_copied, count_copied, recounted_all};
ghost use Rattle.h2_memory_sets.specs.Inodes.{is_settled_top};

use crate::node::{Node, Place};
use crate::owners::leads_over;
use h2_ref::{Check, Kind, Ref};
use h2_set::holds;

/// A node's tree and its range.
pub(crate) fn place_of(x: &Node) -> Place
    ensures { result ≡ place_of x.now }
{
    Place {
        root: x.root,
        low: x.low,
        bits: x.bits,
    }
}

/// A reference with the range of a node.
pub(crate) fn range_of(x: &Node) -> Ref
    ensures { result ≡ range_of x.now }
{
    Ref {
        kind: Kind::Indirect,
        key: x.low,
        keybits: x.bits,
        place: 0,
        radix: 0,
        id: 0,
        check: Check::Nothing,
        dirent: None,
    }
}

// Whether a node's range has the key.
fn reaches(x: &Node, key: u64) -> bool
    ensures { result ≡ (nat_le x.now.low key && nat_lt key (x.now.low + 2 ^ x.now.bits)) }
{
    holds(&range_of(x), key)
}

// Whether a node is the one at a place, or above it in its tree.
fn is_above(x: &Node, at: Place) -> bool
    ensures { result ≡ is_above at x.now }
{
    x.root == at.root && (at.bits <= x.bits && reaches(x, at.low))
}

// Whether a node is writable, once the one at a place is with all above it.
fn is_marked(nodes: &[Node], i: usize, at: Place) -> bool
    requires { i < length nodes.now }
    ensures { (x : Node) → slice_get nodes.now i ≡ Some x → result ≡ (x.dirty || (is_above at x || is_over nodes.now at.root x)) }
{
    let x = &nodes[i];
    x.dirty || (is_above(x, at) || leads_over(nodes, at.root as u64 + 1, at.root, x))
}

// Whether a root is writable, and no leaf names it.
fn is_top_settled(nodes: &[Node], root: u32) -> bool
    ensures { result ≡ is_settled_top (slice_get nodes.now root) }
{
    match nodes.get(root as usize) {
        Some(x) => x.dirty && x.owner.is_none(),
        None => false,
    }
}

/// Whether all above a node is writable, as it is, and no leaf names its root.
pub(crate) fn is_settled(nodes: &[Node], at: u32) -> bool
    requires { at < length nodes.now }
    ensures none { IsTrue result → (x : Node) → slice_get nodes.now at ≡ Some x → x.copies ≡ 0 }
    ensures top { IsTrue result → (x : Node) → slice_get nodes.now at ≡ Some x → is_settled_top (slice_get nodes.now x.root) ≡ true }
{
    let x = &nodes[at as usize];
    x.copies == 0 && is_top_settled(nodes, x.root)
}

fn set_dirty(x: &mut Node, dirty: bool)
    ensures { x.new ≡ with_dirty dirty x.old }
{
    x.dirty = dirty;
}

/// Makes the node at a place writable, and all above it, in its tree and in those that this belongs to.
pub(crate) fn mark_all(nodes: &mut [Node], at: Place)
    ensures { nodes.new ≡ marked_all at nodes.old }
{
    for i in 0..nodes.len() {
        let dirty = is_marked(nodes, i, at);
        set_dirty(&mut nodes[i], dirty);
    }
}

fn clean_one(x: &mut Node)
    ensures { x.new ≡ with_dirty false x.old }
{
    x.dirty = false;
}

/// Lets no node be writable.
pub(crate) fn clean_all(nodes: &mut [Node])
    ensures { nodes.new ≡ cleaned_all nodes.old }
{
    for i in 0..nodes.len() {
        clean_one(&mut nodes[i]);
    }
}

// Whether a node isn't writable, and is the one at a place or above it, but no root.
fn is_copied(x: &Node, at: Place) -> bool
    ensures { result ≡ is_copied at x.now }
{
    x.loaded && (!x.dirty && (x.bits < 63 && is_above(x, at)))
}

// How many there are.
fn count_copied(nodes: &[Node], at: Place) -> u64
    ensures { result ≡ count_copied at nodes.now }
{
    nodes.iter().filter(|x| is_copied(x, at)).count() as u64
}

fn set_copies(x: &mut Node, n: u64)
    ensures { x.new ≡ with_copies n x.old }
{
    x.copies = n;
}

/// Counts for each node anew how many from it up to below the root aren't writable.
pub(crate) fn recount_all(nodes: &mut [Node])
    ensures { nodes.new ≡ recounted_all nodes.old }
{
    for i in 0..nodes.len() {
        let at = place_of(&nodes[i]);
        let n = count_copied(nodes, at);
        set_copies(&mut nodes[i], n);
    }
}
