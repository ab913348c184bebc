//! Roots of trees, without anything below them yet.
ghost use Rattle.std.specs.Prelude.{◌≡◌, ◌<◌, ◌≤◌, ◌^◌, ◌+◌, ◌++◌, ◌∷◌, [], length};
ghost use Rattle.std.specs.Vec.{vec_len, vec_capacity};
ghost use Rattle.h2_memory_sets.specs.View.{top_node, first_key};

use crate::node::{KeyClass, Leaves, Node};
use h2_set::Set;

/// How many references the set of a root has room for.
pub(crate) const ROOT_CAPACITY: u8 = 4;

/// The base-2 logarithm of how many keys the range of a root has: one half of all.
pub(crate) const ROOT_BITS: u8 = 63;

// The first key of a tree's range.
fn first_key(keys: KeyClass) -> u64
    ensures { result ≡ first_key keys }
{
    match keys {
        KeyClass::Low => 0,
        KeyClass::High => 0x8000_0000_0000_0000,
    }
}

/// Appends the writable root of a tree with leaves of these keybits.
pub(crate) fn add_top(nodes: &mut Vec<Node>, keys: KeyClass, leaf_bits: u8, leaves: Leaves) -> u32
    requires small { length nodes.old.items < 2 ^ 32 }
    requires space { vec_len nodes.old < vec_capacity nodes.old }
    ensures number { result ≡ length nodes.old.items }
    ensures pushed { nodes.new.items ≡ nodes.old.items ++ top_node (length nodes.old.items) keys leaf_bits leaves ∷ [] }
    ensures capacity { vec_capacity nodes.old ≤ vec_capacity nodes.new }
    ensures len { vec_len nodes.new ≡ vec_len nodes.old + 1 }
{
    let c = nodes.len() as u32;
    let node = Node {
        set: Set::new(ROOT_CAPACITY),
        loaded: true,
        up: None,
        root: c,
        low: first_key(keys),
        bits: ROOT_BITS,
        dirty: true,
        copies: 0,
        leaf_bits,
        inode: None,
        owner: None,
        held: false,
        leaves,
    };
    match nodes.push(node) {
        Ok(()) => c,
        Err(_) => unreachable!(),
    }
}
