//! A node that takes over a part of another.
ghost use Rattle.std.specs.Prelude.{◌≡◌, ◌<◌, ◌≤◌, ◌^◌, ◌+◌, ◌%◌, length, Some, None, slice_get, true};
ghost use Rattle.std.specs.Vec.{vec_len, vec_capacity};
ghost use Rattle.h2_ref.specs.declared.reference.Ref.{Ref};
ghost use Rattle.h2_memory_sets.specs.declared.node.Node.{Node};
ghost use Rattle.h2_set.specs.Ranges.{put, is_indirect, IsApart, Rising};
ghost use Rattle.h2_set.specs.RefSet.{RefSet, with_rest};
ghost use Rattle.h2_set.specs.SetBytes.{IsHeld};
ghost use Rattle.h2_memory_sets.specs.View.{parted};

use crate::moving::move_below;
use crate::node::{Leaves, Node};
use crate::refitting::give_set;
use h2_ref::{Check, Kind, Ref};
use h2_set::{PutAnswer, Set};

/// The reference that leads to a new node. There is no disk, so its place and its check mean nothing.
pub(crate) fn new_reference(key: u64, keybits: u8, epoch: u64) -> Ref
    requires aligned { key % 2 ^ keybits ≡ 0 }
    requires ends { key + 2 ^ keybits ≤ 2 ^ 64 }
    requires keybits { (1 ≤ keybits) × (keybits ≤ 62) }
    requires epoch { (1 ≤ epoch) × (epoch ≤ 2 ^ 62) }
    ensures held { IsHeld result }
    ensures indirect { is_indirect result ≡ true }
    ensures key { result.key ≡ key }
    ensures keybits { result.keybits ≡ keybits }
    ensures dated { result.id ≡ epoch }
{
    Ref {
        kind: Kind::Indirect,
        key,
        keybits,
        place: 0x40_0000,
        radix: 12,
        id: epoch,
        check: Check::Xx(0),
        dirent: None,
    }
}

// A set without the reference that `r` is put in place of.
fn cleared(set: Set, r: &Ref) -> Set
    requires rising { Rising 0 (2 ^ 64) (put r.now set.refs) }
    ensures apart { IsApart r.now result.refs }
    ensures same { put r.now result.refs ≡ put r.now set.refs }
    ensures capacity { result.capacity ≡ set.capacity }
{
    let mut all = set;
    let Some(i) = all.find(r.key) else {
        return all;
    };
    all.cut(i);
    all
}

/// A set with one more reference, or with it in place of the one with its key.
pub(crate) fn with_one(set: Set, r: Ref) -> Set
    requires rising { Rising 0 (2 ^ 64) (put r set.refs) }
    requires fits { length (put r set.refs) ≤ set.capacity }
    ensures { result ≡ record { refs = put r set.refs; capacity = set.capacity } }
{
    let mut all = cleared(set, &r);
    match all.put(r) {
        PutAnswer::Placed => all,
        PutAnswer::Full => unreachable!(),
    }
}

/// A set with what a split left over.
pub(crate) fn with_left(set: Set, rest: Option<Ref>) -> Set
    requires rising { Rising 0 (2 ^ 64) (with_rest rest set.refs) }
    requires fits { length (with_rest rest set.refs) ≤ set.capacity }
    ensures { result ≡ record { refs = with_rest rest set.refs; capacity = set.capacity } }
{
    match rest {
        Some(r) => with_one(set, r),
        None => set,
    }
}

/// Gives node `at` the set `kept`, and makes a writable node of the set `part`, to which `r` leads, with what lay in the
/// range of `r` below node `at`.
pub(crate) fn add_node(nodes: &mut Vec<Node>, at: u32, kept: Set, part: Set, r: &Ref)
    requires there { at < length nodes.old.items }
    requires small { length nodes.old.items < 2 ^ 32 }
    requires space { vec_len nodes.old < vec_capacity nodes.old }
    ensures parted { (x : Node) → slice_get nodes.old.items at ≡ Some x → nodes.new.items ≡ parted nodes.old.items at x kept part r.now }
    ensures capacity { vec_capacity nodes.old ≤ vec_capacity nodes.new }
    ensures len { vec_len nodes.new ≡ vec_len nodes.old + 1 }
{
    let c = nodes.len() as u32;
    let x = &nodes[at as usize];
    let (root, copies) = (x.root, x.copies);
    give_set(&mut nodes[at as usize], kept);
    move_below(nodes, at, c, r);
    let node = Node {
        set: part,
        loaded: true,
        up: Some(at),
        root,
        low: r.key,
        bits: r.keybits,
        dirty: true,
        copies,
        leaf_bits: 0,
        inode: None,
        owner: None,
        held: false,
        leaves: Leaves::Any,
    };
    match nodes.push(node) {
        Ok(()) => {}
        Err(_) => unreachable!(),
    }
}
