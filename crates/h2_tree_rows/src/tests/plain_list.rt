use h2_num::NoMemory;
use h2_ref::Ref;
use h2_set::holds;
use std::alloc::Global;

/// Leaves in the order of their keys: the plain list with which a tree is compared.
#[derive(Drop)]
pub(super) struct PlainList {
    pub leaves: Vec<Ref>,
}

impl PlainList {
    pub fn new(alloc: Global) -> PlainList {
        PlainList {
            leaves: Vec::new(alloc),
        }
    }

    /// Adds a leaf, or puts it in place of the one with its key, which is answered.
    pub fn put(&mut self, leaf: Ref) -> Result<Option<Ref>, NoMemory> {
        let old = self.take(leaf.key);
        let behind = self.leaves.iter().position(|q| q.key > leaf.key);
        match behind {
            Some(i) => self.leaves.insert(i, leaf)?,
            None => self.leaves.push(leaf)?,
        }
        Ok(old)
    }

    /// Takes out the leaf with the key.
    pub fn take(&mut self, key: u64) -> Option<Ref> {
        let i = self.leaves.iter().position(|q| q.key == key)?;
        Some(self.leaves.remove(i))
    }

    /// The leaf whose range holds the key.
    pub fn find(&self, key: u64) -> Option<Ref> {
        let i = self.leaves.iter().position(|q| holds(q, key))?;
        Some(self.leaves[i])
    }

    /// The leaves with keys from `from` to `to`.
    pub fn between(&self, alloc: Global, from: u64, to: u64) -> Result<Vec<Ref>, NoMemory> {
        let mut found = Vec::new(alloc);
        for leaf in &self.leaves {
            if from <= leaf.key && leaf.key <= to {
                found.push(*leaf)?;
            }
        }
        Ok(found)
    }
}
