//! Nodes that are unloaded, and can be loaded again.
ghost use Rattle.std.specs.Prelude.{◌≡◌, ◌<◌, ◌&&◌, length, slice_get, Some};
ghost use Rattle.h2_memory_sets.specs.declared.node.Node.{Node};
ghost use Rattle.h2_memory_sets.specs.Owners.{owner_of};
ghost use Rattle.h2_memory_sets.specs.Inodes.{is_unowned, with_loaded, unsought_all};
ghost use Rattle.h2_memory_sets.specs.View.{stays_loaded, is_bare, unloaded, unloaded_all};

use crate::node::Node;
use crate::owners::owner_of;

// Whether nothing is above.
fn is_bare(up: Option<u32>) -> bool
    ensures { result ≡ is_bare up }
{
    match up {
        None => true,
        Some(_) => false,
    }
}

// Whether a node stays loaded.
fn stays_loaded(x: &Node, from: u64) -> bool
    ensures { result ≡ stays_loaded from x.now }
{
    x.loaded && (is_bare(x.up) || x.low < from)
}

// Unloads a node, unless it is a root or its range starts before the key.
fn unload_one(x: &mut Node, from: u64)
    ensures { x.new ≡ unloaded from x.old }
{
    x.loaded = stays_loaded(x, from);
}

/// Unloads the nodes below roots whose range starts at this key or after.
pub(crate) fn unload_all(nodes: &mut [Node], from: u64)
    ensures { nodes.new ≡ unloaded_all from nodes.old }
{
    for i in 0..nodes.len() {
        unload_one(&mut nodes[i], from);
    }
}

// Whether a node stays loaded where the trees are unloaded that a leaf names.
fn stays_unsought(nodes: &[Node], i: usize) -> bool
    requires { i < length nodes.now }
    ensures { (x : Node) → slice_get nodes.now i ≡ Some x → result ≡ (x.loaded && is_unowned (owner_of (slice_get nodes.now x.root))) }
{
    let x = &nodes[i];
    x.loaded && owner_of(nodes, x.root).is_none()
}

fn set_loaded(x: &mut Node, loaded: bool)
    ensures { x.new ≡ with_loaded loaded x.old }
{
    x.loaded = loaded;
}

/// Unloads the trees that a leaf names.
pub(crate) fn unload_owned(nodes: &mut [Node])
    ensures { nodes.new ≡ unsought_all nodes.old }
{
    for i in 0..nodes.len() {
        let loaded = stays_unsought(nodes, i);
        set_loaded(&mut nodes[i], loaded);
    }
}
