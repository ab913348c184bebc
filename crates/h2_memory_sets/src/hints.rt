//! Where nodes below others were found last. A wrong hint costs a search, and nothing else: who takes one looks first
//! whether the node is the one that is wanted.
ghost use Rattle.std.specs.Prelude.{◌<◌};

use crate::node::Node;
use std::alloc::Global;

/// How many slots a hint may stand in.
const PROBES: usize = 8;

/// How many slots there are for each node, once there are too few.
const SLOTS_PER_NODE: usize = 8;

/// An odd number whose multiples look like chance: 2^64 over the golden ratio.
const SPREAD: u64 = 0x9e37_79b9_7f4a_7c15;

/// The number of no node.
const NOWHERE: u32 = u32::MAX;

/// Which node was found at a key below another.
#[derive(Clone, Copy)]
struct Hint {
    node: u32,
    up: u32,
    key: u64,
}

/// What stands in a slot that no hint took yet.
const NO_HINT: Hint = Hint {
    node: NOWHERE,
    up: NOWHERE,
    key: 0,
};

/// A table of hints by the node above and the key.
#[derive(Drop)]
pub(crate) struct Hints {
    slots: Vec<Hint>,
}

// The first of the slots in which a hint may stand, of so many.
fn first_slot(up: u32, key: u64, slots: usize) -> usize
    requires { 0 < slots }
    ensures { result < slots }
{
    let mixed = (key ^ (up as u64).wrapping_mul(SPREAD)).wrapping_mul(SPREAD);
    (mixed ^ (mixed >> 32)) as usize % slots
}

impl Hints {
    /// No hints yet.
    pub fn new(alloc: Global) -> Hints {
        Hints {
            slots: Vec::new(alloc),
        }
    }

    // The slot with the hint, or else one that no hint took, or else the first one; none where there are no slots.
    fn slot_of(&self, up: u32, key: u64) -> Option<usize> {
        let n = self.slots.len();
        if n == 0 {
            return None;
        }
        let first = first_slot(up, key, n);
        for i in 0..PROBES {
            let slot = first.wrapping_add(i) % n;
            let hint = self.slots.get(slot)?;
            if hint.node == NOWHERE || (hint.key == key && hint.up == up) {
                return Some(slot);
            }
        }
        Some(first)
    }

    /// Where the node at a key below another may stand; the number of no node where nobody knows.
    pub fn get(&self, up: u32, key: u64) -> u32 {
        let Some(slot) = self.slot_of(up, key) else {
            return NOWHERE;
        };
        match self.slots.get(slot) {
            Some(hint) => hint.node,
            None => NOWHERE,
        }
    }

    /// Remembers where the node at a key below another stands.
    pub fn set(&mut self, up: u32, key: u64, node: u32) {
        let Some(slot) = self.slot_of(up, key) else {
            return;
        };
        if let Some(hint) = self.slots.get_mut(slot) {
            *hint = Hint { node, up, key };
        }
    }

    // Remembers where each node stands.
    fn set_all(&mut self, nodes: &[Node]) {
        let mut i = 0u32;
        for x in nodes {
            if let Some(up) = x.up {
                self.set(up, x.low, i);
            }
            i = i.wrapping_add(1);
        }
    }

    /// Makes a larger table where nodes have become many. It stays as it is where memory is wanting.
    pub fn fit(&mut self, alloc: Global, nodes: &[Node]) {
        if self.slots.len() / 2 > nodes.len() {
            return;
        }
        let count = nodes
            .len()
            .saturating_mul(SLOTS_PER_NODE)
            .saturating_add(64);
        let Ok(slots) = vec![in alloc; NO_HINT; count] else {
            return;
        };
        self.slots = slots;
        self.set_all(nodes);
    }
}
