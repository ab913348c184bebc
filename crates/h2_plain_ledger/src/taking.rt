use crate::blocks::push_both;
use crate::buying::{Payment, buy};
use crate::cursors::{bytes_of, is_filled, radix_of, room_at};
use crate::ledger::PlainLedger;
use crate::sharing::may_share;
use h2_codes::{Code, Cursor};
use h2_geom::{CHUNK_BYTES, chunk_place};
use h2_ledger::SharedSize;
use h2_num::{Block, NoMemory};

impl PlainLedger {
    ghost use Rattle.std.specs.Prelude.{◌≡◌, ◌⊎◌, ◌≤◌, ◌<◌, ◌^◌, suc, IfOk, IfSome, IfNone, OnOk, OnErr, IsTrue, ◌↔◌, Some, IsSome, IsNone};
    ghost use Rattle.std.specs.Bool.{OnTrue, OnFalse};
    ghost use Rattle.h2_ledger.specs.Moves as moves;
    ghost use Rattle.h2_ledger.specs.Moves.{Makes};
    ghost use Rattle.h2_plain_ledger.specs.State.{has, cursor_of, IsFilledAt};
    ghost use Rattle.h2_plain_ledger.specs.PlainLedger.{lists_of, ledger_of};
    ghost use Rattle.h2_codes.specs.declared.cursor.Cursor.{Cursor};
    ghost use Rattle.h2_plain_ledger.specs.Buying.{CannotBuy};
    ghost use Rattle.h2_plain_ledger.specs.Steps.{HasRoom, IsTakenNext, IsTakenFirst, IsTakenWhole, IsShareable, with_adopted};

    /// Takes a block of a shared size at its cursor, and pins it. It is refused exactly where there is no
    /// cursor, or its chunk has no room for the block or isn't one of the volume's.
    pub fn take_next(&mut self, size: SharedSize) -> Result<Option<Block>, NoMemory>
        ensures moves { IfOk result (λ answer. IfSome answer (λ b. Makes has (moves.take_next size b) (ledger_of self.old) (ledger_of self.new))) }
        ensures lists { IfOk result (λ answer. IfSome answer (λ b. IsTakenNext size b (lists_of self.old) (lists_of self.new))) }
        ensures refused { IfOk result (λ answer. IfNone answer ((at : Cursor) → HasRoom (lists_of self.old) size at → ⊥)) }
        ensures none { IfOk result (λ answer. IfNone answer (lists_of self.new ≡ lists_of self.old)) }
        ensures err { OnErr result (lists_of self.new ≡ lists_of self.old) }
    {
        let Some(at) = room_at(self.cursors.at(size), size, self.codes.len()) else {
            return Ok(None);
        };
        let block = Block {
            place: chunk_place(at.chunk) + at.used as u64,
            radix: radix_of(size),
        };
        push_both(&mut self.pins, &mut self.fresh, block)?;
        self.codes[at.chunk as usize] = Code::Used;
        let moved = Cursor {
            chunk: at.chunk,
            used: at.used + bytes_of(size),
        };
        self.cursors = self.cursors.with(size, Some(moved));
        Ok(Some(block))
    }

    /// Takes a block of a shared size in the lowest free chunk, which gets the cursor of the size, and
    /// pins it. It is refused exactly where the cursor has room, no chunk is free, or none can be paid.
    pub fn take_first(
        &mut self,
        size: SharedSize,
        payment: Payment,
    ) -> Result<Option<Block>, NoMemory>
        ensures moves { IfOk result (λ answer. IfSome answer (λ b. Makes has (moves.take_first size b) (ledger_of self.old) (ledger_of self.new))) }
        ensures lists { IfOk result (λ answer. IfSome answer (λ b. IsTakenFirst size payment b (lists_of self.old) (lists_of self.new))) }
        ensures refused { IfOk result (λ answer. IfNone answer ((IsFilledAt size (cursor_of self.old.cursors size) → ⊥) ⊎ CannotBuy self.old.codes.items self.old.reserved payment)) }
        ensures none { IfOk result (λ answer. IfNone answer (lists_of self.new ≡ lists_of self.old)) }
        ensures err { OnErr result (lists_of self.new ≡ lists_of self.old) }
    {
        if !is_filled(self.cursors.at(size), size) {
            return Ok(None);
        }
        let Some(bought) = buy(&self.codes, self.reserved, payment) else {
            return Ok(None);
        };
        let block = Block {
            place: chunk_place(bought.chunk),
            radix: radix_of(size),
        };
        push_both(&mut self.pins, &mut self.fresh, block)?;
        self.reserved = bought.reserved;
        self.codes[bought.chunk as usize] = Code::Used;
        let moved = Cursor {
            chunk: bought.chunk,
            used: bytes_of(size),
        };
        self.cursors = self.cursors.with(size, Some(moved));
        Ok(Some(block))
    }

    /// Takes the lowest free chunk for a block of 16 KiB, and pins it. It is refused exactly where no
    /// chunk is free, or none can be paid.
    pub fn take_whole(&mut self, payment: Payment) -> Result<Option<Block>, NoMemory>
        ensures moves { IfOk result (λ answer. IfSome answer (λ b. Makes has (moves.take_whole b) (ledger_of self.old) (ledger_of self.new))) }
        ensures lists { IfOk result (λ answer. IfSome answer (λ b. IsTakenWhole payment b (lists_of self.old) (lists_of self.new))) }
        ensures refused { IfOk result (λ answer. IfNone answer (CannotBuy self.old.codes.items self.old.reserved payment)) }
        ensures none { IfOk result (λ answer. IfNone answer (lists_of self.new ≡ lists_of self.old)) }
        ensures err { OnErr result (lists_of self.new ≡ lists_of self.old) }
    {
        let Some(bought) = buy(&self.codes, self.reserved, payment) else {
            return Ok(None);
        };
        let block = Block {
            place: chunk_place(bought.chunk),
            radix: 14,
        };
        push_both(&mut self.pins, &mut self.fresh, block)?;
        self.reserved = bought.reserved;
        self.codes[bought.chunk as usize] = Code::Used;
        Ok(Some(block))
    }

    /// Shares a block that is there already, and pins it. It is refused exactly where the block crosses
    /// the end of its chunk, the chunk is neither staged nor used, or a cursor is in it.
    pub fn adopt(&mut self, block: Block) -> Result<bool, NoMemory>
        ensures adopts { IfOk result (λ made. IsTrue made ↔ IsShareable self.old.codes.items self.old.cursors block) }
        ensures moves { IfOk result (λ made. OnTrue made (Makes has (moves.adopt block) (ledger_of self.old) (ledger_of self.new))) }
        ensures lists { IfOk result (λ made. OnTrue made (lists_of self.new ≡ with_adopted (lists_of self.old) block)) }
        ensures refused { IfOk result (λ made. OnFalse made (lists_of self.new ≡ lists_of self.old)) }
        ensures err { OnErr result (lists_of self.new ≡ lists_of self.old) }
    {
        if !may_share(&self.codes, self.cursors, block) {
            return Ok(false);
        }
        self.pins.push(block)?;
        self.codes[(block.place / CHUNK_BYTES) as usize] = Code::Used;
        Ok(true)
    }
}
