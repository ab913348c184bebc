//! Roots that a leaf names, loaded or not.
ghost use Rattle.std.specs.Prelude.{◌≡◌, ◌<◌, ◌-◌, ◌^◌, ◌↔◌, ◌⊎◌, ℕ, IsTrue, IfSome, IfNone, length, slice_get, Some};
ghost use Rattle.std.specs.List.{position};
ghost use Rattle.h2_ref.specs.declared.reference.Ref.{Ref};
ghost use Rattle.h2_memory_sets.specs.View.{FitsBelow, bits_of, range_of};
ghost use Rattle.h2_memory_sets.specs.Kept.{AreKept};
ghost use Rattle.h2_set.specs.RefSet.{IsRefSet};
ghost use Rattle.h2_memory_sets.specs.Inodes.{owned_by, is_sought, sought, IsSought, IsRootNode};

use crate::altering::range_of;
use crate::judging::{fits_below, is_due};
use crate::node::Node;
use crate::roots::ROOT_CAPACITY;
use crate::searching::find_below;
use h2_inode::Inode;
use h2_set::Set;

// Whether the leaf with the key in the tree of the root names a node.
fn owned_by(x: &Node, root: u32, key: u64) -> bool
    ensures { result ≡ owned_by root key x.now.owner }
{
    match x.owner {
        Some(leaf) => leaf.root == root && leaf.key == key,
        None => false,
    }
}

// Whether it is loaded too.
fn is_sought(x: &Node, root: u32, key: u64) -> bool
    ensures { result ≡ is_sought root key x.now }
{
    x.loaded && owned_by(x, root, key)
}

/// The loaded root that the leaf with the key in the tree of `root` names.
pub(crate) fn find_root(nodes: &[Node], root: u32, key: u64) -> Option<usize>
    ensures { result ≡ position (is_sought root key) nodes.now }
{
    nodes.iter().position(|x| is_sought(x, root, key))
}

// Whether each reference of a root may stand there.
fn all_fit_in(set: &Set, x: &Node) -> bool
    ensures set { IsRefSet set.now }
    ensures fits { IsTrue result → (i : ℕ) (r : Ref) → slice_get set.now.refs i ≡ Some r → FitsBelow (range_of x.now) (Some x.now) r }
    ensures all { x.now.bits < 64 → ((i : ℕ) (r : Ref) → slice_get set.now.refs i ≡ Some r → FitsBelow (range_of x.now) (Some x.now) r) → IsTrue result }
{
    let top = range_of(x);
    for i in 0..set.len() {
        if !fits_below(set.at(i), &top, x) {
            return false;
        }
    }
    true
}

// Whether a set has the room of a root's.
fn has_root_room(set: &Set) -> bool
    ensures { IsTrue result ↔ (set.now.capacity ≡ 4) }
{
    set.capacity() == ROOT_CAPACITY
}

// Whether an inode has the number.
fn has_number(inode: &Inode, number: u64) -> bool
    ensures { IsTrue result ↔ (inode.now.number ≡ number) }
{
    inode.number == number
}

// Whether a node is the root of an inode that can be spelled, with references that may stand there.
fn is_root_node(x: &Node, inode: &Inode, key: u64) -> bool
    ensures fits { IsTrue result → IsRootNode x.now inode.now key }
    ensures all { x.now.bits < 64 → IsRootNode x.now inode.now key → IsTrue result }
{
    if !has_root_room(&x.set) {
        return false;
    }
    if !has_number(inode, key) {
        return false;
    }
    if !inode.is_valid() {
        return false;
    }
    all_fit_in(&x.set, x)
}

// Whether node `c` can be loaded: the leaf names it, it isn't loaded, nor is anything below it, and its block holds the
// inode whose number is the key.
fn is_seekable(nodes: &[Node], c: u32, root: u32, key: u64) -> bool
    requires { c < length nodes.now }
    ensures sought { IsTrue result → IsSought nodes.now root key c }
    ensures all { bits_of (slice_get nodes.now c) < 64 → IsSought nodes.now root key c → IsTrue result }
{
    let x = &nodes[c as usize];
    if x.loaded {
        return false;
    }
    if !owned_by(x, root, key) {
        return false;
    }
    let Some(inode) = &x.inode else {
        return false;
    };
    if !is_root_node(x, inode, key) {
        return false;
    }
    find_below(nodes, c).is_none()
}

// The root that the leaf names, where it can be loaded: the last one that was made.
fn find_away_root(nodes: &[Node], root: u32, key: u64) -> Option<u32>
    requires { length nodes.now < 2 ^ 32 }
    ensures found { IfSome result (IsSought nodes.now root key) }
    ensures none { AreKept nodes.now → IfNone result ((c : ℕ) → IsSought nodes.now root key c → ⊥) }
{
    let n = nodes.len() as u32;
    for i in 0..n {
        let c = n - 1 - i;
        if is_seekable(nodes, c, root, key) {
            return Some(c);
        }
    }
    None
}

/// The root that the leaf names, unless this load is the one that meets a bad block.
pub(crate) fn find_sought(nodes: &[Node], root: u32, key: u64, spoiled: &mut u64) -> Option<u32>
    requires { length nodes.now < 2 ^ 32 }
    ensures found { IfSome result (IsSought nodes.now root key) }
    ensures none { AreKept nodes.now → IfNone result ((spoiled.old ≡ 1) ⊎ ((c : ℕ) → IsSought nodes.now root key c → ⊥)) }
    ensures spoiled { spoiled.old ≡ 1 → IfSome result (λ c. ⊥) }
    ensures counts { spoiled.new ≡ spoiled.old - 1 }
{
    if is_due(spoiled) {
        return None;
    }
    find_away_root(nodes, root, key)
}

/// Loads a root; it isn't writable.
pub(crate) fn bring_root(x: &mut Node)
    ensures { x.new ≡ sought x.old }
{
    x.loaded = true;
    x.dirty = false;
    x.copies = 0;
    x.held = false;
}
