use crate::blocks::{joined, may_relink};
use crate::ledger::PlainLedger;
use h2_num::{Block, NoMemory};
use std::alloc::Global;
use std::mem;

impl PlainLedger {
    ghost use Rattle.std.specs.Prelude.{◌≡◌, ◌⊎◌, ◌+◌, ◌-◌, ◌≤◌, ◌<◌, ◌^◌, suc, IfOk, IfSome, IfNone, OnOk, OnErr, IsTrue, ◌↔◌, Some, IsSome, IsNone};
    ghost use Rattle.std.specs.Bool.{OnTrue, OnFalse};
    ghost use Rattle.h2_ledger.specs.Moves as moves;
    ghost use Rattle.h2_ledger.specs.Moves.{Makes};
    ghost use Rattle.h2_plain_ledger.specs.State.{has};
    ghost use Rattle.h2_plain_ledger.specs.PlainLedger.{lists_of, ledger_of};
    ghost use Rattle.h2_plain_ledger.specs.State.{MayRelink};
    ghost use Rattle.h2_plain_ledger.specs.Steps.{free_of, CannotFreeze, with_frozen, IsCompleted};

    /// Makes these the live blocks and the pins. It is refused exactly where a block would be live that
    /// was neither live nor pinned, or pinned that wasn't.
    pub fn relink(&mut self, live: Vec<Block>, pins: Vec<Block>) -> bool
        ensures relinks { IsTrue result ↔ MayRelink self.old.live.items self.old.pins.items live.items pins.items }
        ensures moves { OnTrue result (Makes has moves.relink (ledger_of self.old) (ledger_of self.new)) }
        ensures lists { OnTrue result (lists_of self.new ≡ record (lists_of self.old) { live = live.items; pins = pins.items }) }
        ensures refused { OnFalse result (lists_of self.new ≡ lists_of self.old) }
    {
        if !may_relink(&self.live, &self.pins, &live, &pins) {
            return false;
        }
        self.live = live;
        self.pins = pins;
        true
    }

    /// Reserves so many chunks. It is refused exactly where fewer are free beyond all that is reserved.
    pub fn reserve(&mut self, chunks: u64) -> bool
        ensures reserves { IsTrue result ↔ (self.old.reserved + chunks ≤ free_of (lists_of self.old)) }
        ensures moves { OnTrue result (Makes has moves.reserve (ledger_of self.old) (ledger_of self.new)) }
        ensures lists { OnTrue result (lists_of self.new ≡ record (lists_of self.old) { reserved = self.old.reserved + chunks }) }
        ensures refused { OnFalse result (lists_of self.new ≡ lists_of self.old) }
    {
        let free = self.free();
        if self.reserved > free || chunks > free - self.reserved {
            return false;
        }
        self.reserved += chunks;
        true
    }

    /// Ends a reservation of so many chunks. It is refused exactly where fewer are reserved.
    pub fn release(&mut self, chunks: u64) -> bool
        ensures releases { IsTrue result ↔ (chunks ≤ self.old.reserved) }
        ensures moves { OnTrue result (Makes has moves.reserve (ledger_of self.old) (ledger_of self.new)) }
        ensures lists { OnTrue result (lists_of self.new ≡ record (lists_of self.old) { reserved = self.old.reserved - chunks }) }
        ensures refused { OnFalse result (lists_of self.new ≡ lists_of self.old) }
    {
        if chunks > self.reserved {
            return false;
        }
        self.reserved -= chunks;
        true
    }

    /// Freezes the live root for a flush, under the number after the newest completed header's. It is
    /// refused exactly where a flush is under way, or the numbers are used up.
    pub fn freeze(&mut self, alloc: Global) -> Result<bool, NoMemory>
        ensures freezes { IfOk result (λ made. OnFalse made (CannotFreeze (lists_of self.old))) }
        ensures moves { IfOk result (λ made. OnTrue made (Makes has moves.freeze (ledger_of self.old) (ledger_of self.new))) }
        ensures lists { IfOk result (λ made. OnTrue made (lists_of self.new ≡ with_frozen (lists_of self.old))) }
        ensures refused { IfOk result (λ made. OnFalse made (lists_of self.new ≡ lists_of self.old)) }
        ensures err { OnErr result (lists_of self.new ≡ lists_of self.old) }
    {
        let None = self.frozen_number else {
            return Ok(false);
        };
        let Some(number) = self.completed_number.checked_add(1) else {
            return Ok(false);
        };
        self.frozen = joined(alloc, &self.live, &[])?;
        self.frozen_number = Some(number);
        self.queued = mem::replace(&mut self.fresh, Vec::new(alloc));
        Ok(true)
    }

    /// The header of the frozen root is out and durable. It is refused exactly where no flush is under way.
    pub fn complete(&mut self, alloc: Global) -> bool
        ensures completes { IsTrue result ↔ IsSome self.old.frozen_number }
        ensures moves { OnTrue result (Makes has moves.complete (ledger_of self.old) (ledger_of self.new)) }
        ensures lists { OnTrue result (IsCompleted (lists_of self.old) (lists_of self.new)) }
        ensures refused { OnFalse result (lists_of self.new ≡ lists_of self.old) }
    {
        let Some(number) = self.frozen_number else {
            return false;
        };
        self.completed_number = number;
        self.completed = mem::replace(&mut self.frozen, Vec::new(alloc));
        self.frozen_number = None;
        self.queued = Vec::new(alloc);
        true
    }
}
