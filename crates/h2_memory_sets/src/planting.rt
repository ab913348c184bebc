//! Roots of inodes.
ghost use Rattle.std.specs.Prelude.{◌≡◌, ◌<◌, ◌≤◌, ◌^◌, ◌+◌, ◌++◌, ◌∷◌, [], length};
ghost use Rattle.std.specs.Vec.{vec_len, vec_capacity};
ghost use Rattle.h2_set.specs.RefSet.{IsRefSet};
ghost use Rattle.h2_inode.specs.Inode.{keys_from};
ghost use Rattle.h2_inode.specs.Nodes.{leaf_keybits, set_of};
ghost use Rattle.h2_memory_sets.specs.Inodes.{inode_node, with_inode};

use crate::node::{Leaves, Node, Owner};
use crate::roots::{ROOT_BITS, ROOT_CAPACITY};
use h2_inode::{Body, Inode, InodeKind};
use h2_set::Set;

/// The set of a body; one that is bytes has none, which counts as an empty one.
pub(crate) fn set_of(body: &Body) -> Set
    ensures same { result ≡ set_of body.now }
    ensures set { IsRefSet result }
{
    match body {
        Body::Refs(set) => set.copy(),
        Body::Bytes(_) => Set::new(ROOT_CAPACITY),
    }
}

// The least key of the trees of a kind.
fn keys_from(kind: InodeKind) -> u64
    ensures { result ≡ keys_from kind }
{
    match kind {
        InodeKind::Directory => 1 << 63,
        InodeKind::File | InodeKind::Pfs => 0,
    }
}

// The keybits of their leaves.
fn leaf_keybits(kind: InodeKind) -> u8
    ensures { result ≡ leaf_keybits kind }
{
    match kind {
        InodeKind::Directory | InodeKind::Pfs => 0,
        InodeKind::File => 14,
    }
}

/// Appends the writable root of an inode, which the leaf names.
pub(crate) fn add_inode(nodes: &mut Vec<Node>, leaf: Owner, inode: Inode) -> u32
    requires small { length nodes.old.items < 2 ^ 32 }
    requires space { vec_len nodes.old < vec_capacity nodes.old }
    ensures number { result ≡ length nodes.old.items }
    ensures pushed { nodes.new.items ≡ nodes.old.items ++ inode_node (length nodes.old.items) leaf inode ∷ [] }
    ensures set { IsRefSet (set_of inode.body) }
    ensures capacity { vec_capacity nodes.old ≤ vec_capacity nodes.new }
    ensures len { vec_len nodes.new ≡ vec_len nodes.old + 1 }
{
    let c = nodes.len() as u32;
    let node = Node {
        set: set_of(&inode.body),
        loaded: true,
        up: None,
        root: c,
        low: keys_from(inode.kind),
        bits: ROOT_BITS,
        dirty: true,
        copies: 0,
        leaf_bits: leaf_keybits(inode.kind),
        inode: Some(inode),
        owner: Some(leaf),
        held: false,
        leaves: Leaves::Any,
    };
    match nodes.push(node) {
        Ok(()) => c,
        Err(_) => unreachable!(),
    }
}

/// Gives a root another inode, and its set.
pub(crate) fn give_inode(x: &mut Node, inode: Inode)
    ensures { x.new ≡ with_inode inode x.old }
{
    x.set = set_of(&inode.body);
    x.inode = Some(inode);
}
