ghost use Rattle.std.specs.Prelude.{◌≡◌, ◌<◌, ◌≤◌, ◌^◌, ◌-◌, ◌↔◌, ◌⊎◌, ℕ, true, false, Some, IsTrue, IfSome, IfNone, length, slice_get};
ghost use Rattle.h2_ref.specs.declared.reference.Kind.TheVariants.{Empty};
ghost use Rattle.h2_set.specs.Ranges.{limit, is_indirect, IsAligned};
ghost use Rattle.h2_set.specs.SetBytes.{IsHeld};
ghost use Rattle.h2_memory_sets.specs.View.{leaf_bits_of, root_of, brought, FitsBelow, AllFitBelow, IsLoadable};
ghost use Rattle.h2_memory_sets.specs.Owners.{allows_of};

use crate::allowing::allows;
use crate::node::Node;
use crate::searching::{find_below, is_away};
use h2_ref::{Kind, Ref};
use h2_set::{Set, is_indirect};

/// How many references the set of an indirect block has room for.
const BLOCK_CAPACITY: u8 = 32;

// How many keys a range has.
fn range_length(keybits: u8) -> u64
    requires { keybits < 64 }
    ensures { result ≡ 2 ^ keybits }
{
    1u64 << keybits
}

// Whether the range of a reference lies in that of `top`, and is shorter.
fn lies_below(r: &Ref, top: &Ref) -> bool
    ensures low { IsTrue result → top.now.key ≤ r.now.key }
    ensures high { IsTrue result → limit r.now ≤ limit top.now }
    ensures fewer { IsTrue result → r.now.keybits < top.now.keybits }
    ensures all { top.now.keybits < 64 → top.now.key ≤ r.now.key → limit r.now ≤ limit top.now → r.now.keybits < top.now.keybits → IsTrue result }
{
    if top.keybits >= 64 {
        return false;
    }
    if r.keybits >= top.keybits {
        return false;
    }
    if r.key < top.key {
        return false;
    }
    let whole = range_length(top.keybits);
    let part = range_length(r.keybits);
    if part > whole {
        return false;
    }
    r.key - top.key <= whole - part
}

// Whether the key of a reference is a multiple of the length of its range.
fn is_aligned(r: &Ref) -> bool
    ensures aligned { IsTrue result → IsAligned r.now }
    ensures all { r.now.keybits < 64 → IsAligned r.now → IsTrue result }
{
    if r.keybits >= 64 {
        return false;
    }
    r.key % range_length(r.keybits) == 0
}

// Whether a tree may have the key: one below 2^62, or of at least 2^63.
fn is_classed(key: u64) -> bool
    ensures { IsTrue result ↔ ((key < 2 ^ 62) ⊎ (2 ^ 63 ≤ key)) }
{
    if key < 1 << 62 {
        return true;
    }
    key >= 1 << 63
}

// Whether a reference has keybits that it may have in a tree with leaves of these keybits.
fn is_sized(r: &Ref, leaf_bits: u8) -> bool
    ensures leaf { IsTrue result → is_indirect r.now ≡ false → r.now.keybits ≡ leaf_bits }
    ensures wide { IsTrue result → is_indirect r.now ≡ true → leaf_bits ≤ r.now.keybits }
    ensures some { IsTrue result → is_indirect r.now ≡ true → 0 < r.now.keybits }
    ensures all { (is_indirect r.now ≡ false → r.now.keybits ≡ leaf_bits) → (is_indirect r.now ≡ true → leaf_bits ≤ r.now.keybits) → (is_indirect r.now ≡ true → 0 < r.now.keybits) → IsTrue result }
{
    if !is_indirect(r) {
        return r.keybits == leaf_bits;
    }
    if r.keybits == 0 {
        return false;
    }
    leaf_bits <= r.keybits
}

// Whether a block may hold a reference: it names something, and can be written where it is indirect.
fn is_held(r: &Ref) -> bool
    ensures named { IsTrue result → r.now.kind ≡ Empty → ⊥ }
    ensures held { IsTrue result → is_indirect r.now ≡ true → IsHeld r.now }
    ensures all { (r.now.kind ≡ Empty → ⊥) → (is_indirect r.now ≡ true → IsHeld r.now) → IsTrue result }
{
    if r.kind == Kind::Empty {
        return false;
    }
    if !is_indirect(r) {
        return true;
    }
    r.valid()
}

// Whether the tree of a root may have a reference: any that is indirect, and those leaves that it allows.
fn is_allowed(r: &Ref, root: &Node) -> bool
    ensures allowed { IsTrue result → is_indirect r.now ≡ false → allows_of (Some root.now) r.now ≡ true }
    ensures all { (is_indirect r.now ≡ false → allows_of (Some root.now) r.now ≡ true) → IsTrue result }
{
    if is_indirect(r) {
        return true;
    }
    allows(root, r)
}

/// Whether a reference may stand in a node with the range of `top`, in the tree of this root.
pub(crate) fn fits_below(r: &Ref, top: &Ref, root: &Node) -> bool
    ensures fits { IsTrue result → FitsBelow top.now (Some root.now) r.now }
    ensures all { top.now.keybits < 64 → FitsBelow top.now (Some root.now) r.now → IsTrue result }
{
    if !is_held(r) {
        return false;
    }
    if !lies_below(r, top) {
        return false;
    }
    if !is_aligned(r) {
        return false;
    }
    if !is_classed(r.key) {
        return false;
    }
    if !is_allowed(r, root) {
        return false;
    }
    is_sized(r, root.leaf_bits)
}

// Whether a set has a reference.
fn has_some(set: &Set) -> bool
    ensures { IsTrue result ↔ (0 < length set.now.refs) }
{
    set.len() > 0
}

// Whether a set has the room of an indirect block.
fn has_room(set: &Set) -> bool
    ensures { IsTrue result ↔ (set.now.capacity ≡ 32) }
{
    set.capacity() == BLOCK_CAPACITY
}

// Whether a set may be that of the node that `top` names, in the tree of this root.
fn all_fit(set: &Set, top: &Ref, root: &Node) -> bool
    ensures fits { IsTrue result → AllFitBelow top.now (Some root.now) set.now }
    ensures all { top.now.keybits < 64 → AllFitBelow top.now (Some root.now) set.now → IsTrue result }
{
    if !has_room(set) {
        return false;
    }
    if !has_some(set) {
        return false;
    }
    for i in 0..set.len() {
        if !fits_below(set.at(i), top, root) {
            return false;
        }
    }
    true
}

// Whether node `c` isn't loaded, a reference in the set of node `at` leads to it, and it may be a node of the tree of
// this root.
fn is_loadable(nodes: &[Node], c: usize, at: u32, r: &Ref, root: &Node) -> bool
    requires there { c < length nodes.now }
    requires small { length nodes.now < 2 ^ 32 }
    ensures loadable { IsTrue result → slice_get nodes.now (root_of (slice_get nodes.now at)) ≡ Some root.now → IsLoadable nodes.now at r.now c }
    ensures all { r.now.keybits < 64 → slice_get nodes.now (root_of (slice_get nodes.now at)) ≡ Some root.now → IsLoadable nodes.now at r.now c → IsTrue result }
{
    let x = &nodes[c];
    if !is_away(x, at, r.key) {
        return false;
    }
    if !all_fit(&x.set, r, root) {
        return false;
    }
    find_below(nodes, c as u32).is_none()
}

// The first node to which a reference in the set of node `at` leads, where it isn't loaded, and may be one of its tree.
fn find_loadable(nodes: &[Node], at: u32, r: &Ref) -> Option<usize>
    requires there { at < length nodes.now }
    requires root { root_of (slice_get nodes.now at) < length nodes.now }
    requires small { length nodes.now < 2 ^ 32 }
    ensures found { IfSome result (IsLoadable nodes.now at r.now) }
    ensures none { r.now.keybits < 64 → IfNone result ((c : ℕ) → IsLoadable nodes.now at r.now c → ⊥) }
{
    let root = &nodes[nodes[at as usize].root as usize];
    for c in 0..nodes.len() {
        if is_loadable(nodes, c, at, r, root) {
            return Some(c);
        }
    }
    None
}

/// Counts a load, and tells whether it is the one that is counted down to.
pub(crate) fn is_due(left: &mut u64) -> bool
    ensures due { IsTrue result ↔ (left.old ≡ 1) }
    ensures counts { left.new ≡ left.old - 1 }
{
    let due = *left == 1;
    *left = left.saturating_sub(1);
    due
}

/// The node to which a reference leads, unless this load is the one that meets a bad block.
pub(crate) fn find_unspoiled(nodes: &[Node], at: u32, r: &Ref, spoiled: &mut u64) -> Option<usize>
    requires there { at < length nodes.now }
    requires root { root_of (slice_get nodes.now at) < length nodes.now }
    requires small { length nodes.now < 2 ^ 32 }
    ensures found { IfSome result (IsLoadable nodes.now at r.now) }
    ensures none { r.now.keybits < 64 → IfNone result ((spoiled.old ≡ 1) ⊎ ((c : ℕ) → IsLoadable nodes.now at r.now c → ⊥)) }
    ensures spoiled { spoiled.old ≡ 1 → IfSome result (λ c. ⊥) }
    ensures counts { spoiled.new ≡ spoiled.old - 1 }
{
    if is_due(spoiled) {
        return None;
    }
    find_loadable(nodes, at, r)
}

/// Loads a node, below one with this root and so many copies, and by a reference with these keybits. It isn't
/// writable.
pub(crate) fn bring_in(x: &mut Node, root: u32, copies: u64, bits: u8)
    requires { copies < 64 }
    ensures { x.new ≡ brought root copies bits x.old }
{
    x.loaded = true;
    x.root = root;
    x.bits = bits;
    x.dirty = false;
    x.copies = copies + 1;
    x.held = false;
}
