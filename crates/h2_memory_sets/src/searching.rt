ghost use Rattle.std.specs.Prelude.{◌≡◌, ℕ, true, Some, slice_get};
ghost use Rattle.std.specs.List.{position};
ghost use Rattle.h2_memory_sets.specs.Inodes.{is_named};
ghost use Rattle.h2_memory_sets.specs.declared.node.Node.{Node};
ghost use Rattle.h2_memory_sets.specs.View.{is_below, is_child, is_child_of, is_away, is_up};

use crate::node::Node;

// Whether the node right above is this one.
fn is_up(up: Option<u32>, at: u32) -> bool
    ensures { result ≡ is_up at up }
{
    match up {
        None => false,
        Some(u) => u == at,
    }
}

// Whether a node is loaded, right below the other, and at this key.
fn is_child(x: &Node, at: u32, key: u64) -> bool
    ensures { result ≡ is_child at key x.now }
{
    x.loaded && (is_up(x.up, at) && x.low == key)
}

/// Whether a node isn't loaded, right below the other, and at this key.
pub(crate) fn is_away(x: &Node, at: u32, key: u64) -> bool
    ensures { result ≡ is_away at key x.now }
{
    !x.loaded && (is_up(x.up, at) && x.low == key)
}

// Whether the node with this number is loaded, right below the other, and at this key.
fn is_hinted(nodes: &[Node], hint: u32, at: u32, key: u64) -> bool
    ensures { result ≡ is_child_of at key (slice_get nodes.now hint) }
{
    match nodes.get(hint as usize) {
        Some(x) => is_child(x, at, key),
        None => false,
    }
}

/// The loaded node at a key below another, of which there is one at most. The one that the hint names is looked at
/// first.
pub(crate) fn find_child(nodes: &[Node], at: u32, key: u64, hint: u32) -> Option<usize>
    requires one { (i : ℕ) (x : Node) → slice_get nodes.now i ≡ Some x → is_child at key x ≡ true → position (is_child at key) nodes.now ≡ Some i }
    ensures { result ≡ position (is_child at key) nodes.now }
{
    if is_hinted(nodes, hint, at, key) {
        return Some(hint as usize);
    }
    nodes.iter().position(|x| is_child(x, at, key))
}

/// A loaded node right below another.
pub(crate) fn find_below(nodes: &[Node], at: u32) -> Option<usize>
    ensures { result ≡ position (is_below at) nodes.now }
{
    nodes.iter().position(|x| x.loaded && is_up(x.up, at))
}

// Whether a node is loaded, and a leaf names it.
fn is_named(x: &Node) -> bool
    ensures { result ≡ is_named x.now }
{
    match x.owner {
        Some(_) => x.loaded,
        None => false,
    }
}

/// A loaded root that a leaf names.
pub(crate) fn find_named(nodes: &[Node]) -> Option<usize>
    ensures { result ≡ position is_named nodes.now }
{
    nodes.iter().position(|x| is_named(x))
}
