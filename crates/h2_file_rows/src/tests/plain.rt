use h2_file::BLOCK_BYTES;
use h2_num::NoMemory;
use h2_ref::Ref;
use std::alloc::Global;

/// A file as a plain list of the references of its blocks, in no order.
#[derive(Drop)]
pub(super) struct PlainFile {
    pub blocks: Vec<Ref>,
    pub size: u64,
}

// The number of the block that holds a byte.
fn block_at(start: u64) -> u64 {
    start / BLOCK_BYTES
}

impl PlainFile {
    /// An empty file.
    pub fn new(alloc: Global) -> PlainFile {
        PlainFile {
            blocks: Vec::new(alloc),
            size: 0,
        }
    }

    /// Puts the references in, each in place of the one of its block.
    pub fn link(&mut self, refs: &[Ref], size: u64) -> Result<(), NoMemory> {
        for r in refs {
            let block = block_at(r.key);
            self.blocks.retain(|q| block_at(q.key) != block);
            self.blocks.push(*r)?;
        }
        self.size = size;
        Ok(())
    }

    /// Takes out what begins at the size or past it, and puts `last` in place of the reference of its block.
    pub fn cut(&mut self, size: u64, last: Option<Ref>) -> Result<(), NoMemory> {
        self.blocks.retain(|q| q.key < size);
        if let Some(r) = last {
            let before = self.blocks.len();
            self.blocks.retain(|q| block_at(q.key) != block_at(r.key));
            if self.blocks.len() < before {
                self.blocks.push(r)?;
            }
        }
        self.size = size;
        Ok(())
    }

    /// The reference of the block that holds a byte.
    pub fn find(&self, start: u64) -> Option<Ref> {
        let block = block_at(start);
        let i = self.blocks.iter().position(|q| block_at(q.key) == block)?;
        Some(self.blocks[i])
    }
}
