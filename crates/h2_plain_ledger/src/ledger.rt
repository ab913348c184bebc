ghost use Rattle.std.specs.Prelude.{length, ◌≡◌, ◌≤◌};

use crate::codes::free_chunks;
use crate::cursors::Cursors;
use h2_codes::Code;
use h2_ledger::Pass;
use h2_num::Block;
use std::alloc::Global;

/// A ledger of space in lists: one code for each chunk, and lists of blocks.
///
/// Each function makes one move. A function that answers `None` or false has refused, and has changed
/// nothing; so has one that answers want of memory, as the lists tell.
#[derive(Drop)]
pub struct PlainLedger {
    /// The codes of the chunks.
    pub codes: Vec<Code>,
    pub cursors: Cursors,
    /// How many chunks are reserved and not yet taken.
    pub reserved: u64,
    /// The blocks of the live tree.
    pub live: Vec<Block>,
    /// The blocks that running commands hold.
    pub pins: Vec<Block>,
    /// The number of the frozen root, while a flush is under way.
    pub frozen_number: Option<u64>,
    pub frozen: Vec<Block>,
    /// The number of the newest completed header.
    pub completed_number: u64,
    pub completed: Vec<Block>,
    pub pass: Pass,
    /// What the running pass marked at its freeze.
    pub marked: Vec<Block>,
    /// What was taken since the last freeze.
    pub fresh: Vec<Block>,
    /// What the flush under way has yet to write.
    pub queued: Vec<Block>,
    ghost few: { length codes.items ≤ 1048576 },
}

impl PlainLedger {
    ghost use Rattle.h2_ledger.specs.Runs.{IsOpened};
    ghost use Rattle.h2_plain_ledger.specs.State.{has};
    ghost use Rattle.h2_plain_ledger.specs.PlainLedger.{lists_of, ledger_of};
    ghost use Rattle.h2_plain_ledger.specs.Steps.{opened, free_of};

    /// The ledger of a volume that was just opened, with an empty tree under the header of this number.
    pub fn open(alloc: Global, codes: Vec<Code>, number: u64) -> PlainLedger
        requires few { length codes.items ≤ 1048576 }
        ensures state { lists_of result ≡ opened codes.items number }
        ensures opens { IsOpened has (ledger_of result) }
    {
        PlainLedger {
            codes,
            cursors: Cursors {
                small: None,
                middle: None,
            },
            reserved: 0,
            live: Vec::new(alloc),
            pins: Vec::new(alloc),
            frozen_number: None,
            frozen: Vec::new(alloc),
            completed_number: number,
            completed: Vec::new(alloc),
            pass: Pass::Idle,
            marked: Vec::new(alloc),
            fresh: Vec::new(alloc),
            queued: Vec::new(alloc),
        }
    }

    /// How many chunks are free.
    pub fn free(&self) -> u64
        ensures { result ≡ free_of (lists_of self.now) }
    {
        free_chunks(&self.codes)
    }
}
