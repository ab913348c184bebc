ghost use Rattle.std.specs.Prelude.{◌≡◌, ◌<◌, All, AllPairs, Contains, OnOk, OnErr, ◌≢◌};
ghost use Rattle.h2_num.specs.declared.block.Block.{Block};
ghost use Rattle.h2_geom.specs.Geometry.{chunk_of};
ghost use Rattle.h2_freemap.specs.Space.{InVolume, code_of};
ghost use Rattle.h2_freemap.specs.Free.{free_of};
ghost use Rattle.h2_freemap.specs.Pins.{is_in_use, MayAdopt, Reserves, Pins, Unpins};

use crate::freemap::Freemap;
use crate::search::find_block;
use h2_codes::Code;
use h2_geom::chunk_of;
use h2_num::{Block, NoMemory};

impl Freemap {
    /// Shares a block of the volume that was taken before: its chunk becomes used. False exactly where the
    /// chunk is free or reserved, and then nothing changes.
    pub fn adopt(&mut self, block: Block) -> bool
        requires in_volume { InVolume self.old block }
        ensures answer { result ≡ is_in_use (code_of self.old (chunk_of block.place)) }
        ensures adopts { MayAdopt result block self.old self.new }
        ensures free { free_of self.new ≡ free_of self.old }
    {
        // What holds of each freemap bounds the block's place.
        let _geometry = &self.geometry;
        let chunk = chunk_of(block.place);
        match self.code(chunk) {
            Code::Staged | Code::Used => {
                self.use_chunk(chunk);
                true
            }
            Code::Free | Code::Reserved => false,
        }
    }

    /// Makes room for at least so many more pins, or changes nothing.
    pub fn reserve_pins(&mut self, n: u32) -> Result<(), NoMemory>
        ensures ok { OnOk result (Reserves n self.old self.new) }
        ensures err { OnErr result (self.new ≡ self.old) }
    {
        self.pins.reserve(n as usize)?;
        Ok(())
    }

    /// Pins a block of the volume that isn't pinned, where there is room for one more pin.
    pub fn pin(&mut self, block: Block)
        requires room { 0 < self.old.spare }
        requires unpinned { Contains self.old.pins block → ⊥ }
        requires in_volume { InVolume self.old block }
        ensures { Pins block self.old self.new }
    {
        let _ = self.pins.push(block);
    }

    /// Ends the pin of a block that is pinned. The others keep their order.
    pub fn unpin(&mut self, block: Block)
        requires pinned { Contains self.old.pins block }
        ensures { Unpins block self.old self.new }
    {
        let at = find_block(&self.pins, block).unwrap();
        self.pins.remove(at);
    }

    /// The pinned blocks, in the order in which they were pinned.
    pub fn pins(&self) -> &[Block]
        ensures value { result.now ≡ self.now.pins }
        ensures in_volume { All (InVolume self.now) self.now.pins }
        ensures distinct { AllPairs (λ (a b : Block). a ≢ b) self.now.pins }
    {
        &self.pins
    }
}
