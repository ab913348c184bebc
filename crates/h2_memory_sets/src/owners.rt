//! Which leaves name a root, those that name what these stand in, and so on.
ghost use Rattle.std.specs.Prelude.{◌≡◌, ◌+◌, ◌<◌, ◌^◌, length, slice_get};
ghost use Rattle.h2_set.specs.Ranges.{holds};
ghost use Rattle.h2_memory_sets.specs.Owners.{owner_of, on_chain};
ghost use Rattle.h2_memory_sets.specs.View.{any_of, leads, is_lost};

use crate::dropping::loses;
use crate::node::{Node, Owner};
use h2_set::{Set, holds};

/// The leaf that names a root.
pub(crate) fn owner_of(nodes: &[Node], root: u32) -> Option<Owner>
    ensures { result ≡ owner_of (slice_get nodes.now root) }
{
    match nodes.get(root as usize) {
        Some(x) => x.owner,
        None => None,
    }
}

// Whether a reference of a set has a range that holds the key.
fn any_holds(set: &Set, key: u64) -> bool
    ensures { result ≡ any_of (holds key) set.now.refs }
{
    for i in 0..set.len() {
        if holds(set.at(i), key) {
            return true;
        }
    }
    false
}

// Whether a reference of a node leads to the leaf.
fn leads(x: &Node, leaf: Owner) -> bool
    ensures { result ≡ leads x.now leaf }
{
    x.root == leaf.root && any_holds(&x.set, leaf.key)
}

/// Whether a reference of node `x` leads to the leaf that names the root, or to one of the first `n` that name its tree's
/// root, that of the tree above, and so on.
pub(crate) fn leads_over(nodes: &[Node], n: u64, root: u32, x: &Node) -> bool
    ensures { result ≡ on_chain (leads x.now) nodes.now n root }
{
    if n == 0 {
        return false;
    }
    let Some(leaf) = owner_of(nodes, root) else {
        return false;
    };
    leads(x, leaf) || leads_over(nodes, n - 1, leaf.root, x)
}

// Whether the leaf is one of the tree with this root, below a reference that is missing.
fn is_lost(leaf: Owner, top: u32, old: &Set, new: &Set) -> bool
    ensures { result ≡ is_lost top old.now.refs new.now.refs leaf }
{
    leaf.root == top && loses(old, new, leaf.key)
}

/// Whether the leaf that names the root, or one of the first `n` above, is one of the tree of `top`, below a reference
/// that is in `old` and not in `new`.
pub(crate) fn is_over_lost(
    nodes: &[Node],
    n: u64,
    root: u32,
    top: u32,
    old: &Set,
    new: &Set,
) -> bool
    ensures { result ≡ on_chain (is_lost top old.now.refs new.now.refs) nodes.now n root }
{
    if n == 0 {
        return false;
    }
    let Some(leaf) = owner_of(nodes, root) else {
        return false;
    };
    is_lost(leaf, top, old, new) || is_over_lost(nodes, n - 1, leaf.root, top, old, new)
}
