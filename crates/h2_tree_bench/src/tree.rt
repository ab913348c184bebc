//! A directory's tree over sets in memory.
ghost use Rattle.std.specs.Prelude.{IfOk, OnOk};
ghost use Rattle.h2_memory_sets.specs.Seen.{forest_of};
ghost use Rattle.h2_tree.specs.Changes.{Takes};
ghost use Rattle.h2_tree_bench.specs.EntryTree.{IsEntryTree};

use crate::entries::{EPOCH, entry, join, key_of, number_of};
use h2_memory_sets::{KeyClass, MemorySets};
use h2_num::NoMemory;
use h2_ref::{Ref, Trouble};
use h2_set::NodeId;
use h2_tree::{insert, lookup};
use std::alloc::Global;

/// How many blocks can be taken: more than any run takes.
const ROOM: u64 = 1_000_000_000;

/// How many blocks an insertion takes at most.
const MOST_BLOCKS: u64 = 63;

/// A tree of entries.
#[derive(Drop)]
pub struct Tree {
    pub(crate) sets: MemorySets,
    pub(crate) root: NodeId,
}

impl Tree {
    /// A tree without entries.
    #[tactic(auto, using(crate::proofs::EntryTrees::fresh))]
    pub fn new(alloc: Global) -> Result<Tree, NoMemory>
        ensures { IfOk result (λ t. IsEntryTree (forest_of t.sets) t.root.0) }
    {
        let mut sets = MemorySets::new(alloc, EPOCH, ROOM);
        let root = sets.add_root(KeyClass::High, 0)?;
        Ok(Tree { sets, root })
    }

    // Inserts an entry.
    fn insert_one(&mut self, alloc: Global, leaf: Ref) -> Result<Option<Ref>, Trouble>
        requires tree { IsEntryTree (forest_of self.old.sets) self.old.root.0 }
        requires takes { Takes (forest_of self.old.sets) self.old.root.0 leaf }
        ensures { IsEntryTree (forest_of self.new.sets) self.new.root.0 }
    {
        if self.sets.room() < MOST_BLOCKS {
            return Err(Trouble::NoMemory);
        }
        insert(alloc, &mut self.sets, self.root, leaf)
    }

    /// Inserts entries 0 to `count` less one.
    #[tactic(auto, using(crate::proofs::EntryTrees::takes))]
    pub fn insert_all(&mut self, alloc: Global, count: u32) -> Result<(), Trouble>
        requires { IsEntryTree (forest_of self.old.sets) self.old.root.0 }
        ensures { OnOk result (IsEntryTree (forest_of self.new.sets) self.new.root.0) }
    {
        for i in 0..count {
            self.insert_one(alloc, entry(i))?;
        }
        Ok(())
    }

    // The entry with a key.
    fn find_one(&mut self, alloc: Global, key: u64) -> Result<Option<Ref>, Trouble>
        requires { IsEntryTree (forest_of self.old.sets) self.old.root.0 }
        ensures { IsEntryTree (forest_of self.new.sets) self.new.root.0 }
    {
        lookup(alloc, &mut self.sets, self.root, key)
    }

    /// Looks entries 0 to `count` less one up, and joins what they name; 0 for one that isn't found.
    pub fn find_all(&mut self, alloc: Global, count: u32) -> Result<u64, Trouble>
        requires { IsEntryTree (forest_of self.old.sets) self.old.root.0 }
    {
        let mut joined = 0;
        for i in 0..count {
            let found = self.find_one(alloc, key_of(i))?;
            joined = join(joined, number_found(&found));
        }
        Ok(joined)
    }

    /// How many blocks were made.
    pub fn blocks(&self) -> u64 {
        ROOM.saturating_sub(self.sets.room())
    }
}

// What an entry that was found names; 0 where none was.
fn number_found(found: &Option<Ref>) -> u64 {
    match found {
        Some(r) => number_of(r),
        None => 0,
    }
}
