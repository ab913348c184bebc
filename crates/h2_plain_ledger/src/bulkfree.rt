use crate::blocks::joined;
use crate::codes::apply_segment;
use crate::ledger::PlainLedger;
use crate::passes::{may_end, pass_after};
use h2_geom::SEGMENT_CHUNKS;
use h2_ledger::Pass;
use h2_num::NoMemory;
use std::alloc::Global;
use std::mem;

impl PlainLedger {
    ghost use Rattle.std.specs.Prelude.{◌≡◌, ◌≢◌, ◌⊎◌, ◌≤◌, ◌<◌, ◌^◌, suc, IfOk, IfSome, IfNone, OnOk, OnErr, IsTrue, ◌↔◌, Some, IsSome, IsNone};
    ghost use Rattle.std.specs.Bool.{OnTrue, OnFalse};
    ghost use Rattle.h2_ledger.specs.Moves as moves;
    ghost use Rattle.h2_ledger.specs.Moves.{Makes};
    ghost use Rattle.h2_plain_ledger.specs.State.{has};
    ghost use Rattle.h2_plain_ledger.specs.PlainLedger.{lists_of, ledger_of};
    ghost use Rattle.h2_ledger.specs.declared.pass.Pass.TheVariants.{Idle, Begun, Marked, Scanning};
    ghost use Rattle.h2_plain_ledger.specs.Steps.{CannotFreeze, with_marked, MayScan, IsScanning, MayEnd, MayApply, IsAppliedNext, MakesApply};

    /// Begins a pass of bulkfree. It is refused exactly where one runs.
    pub fn begin_pass(&mut self) -> bool
        ensures begins { IsTrue result ↔ (self.old.pass ≡ Idle) }
        ensures moves { OnTrue result (Makes has moves.begin_pass (ledger_of self.old) (ledger_of self.new)) }
        ensures lists { OnTrue result (lists_of self.new ≡ record (lists_of self.old) { pass = Begun }) }
        ensures refused { OnFalse result (lists_of self.new ≡ lists_of self.old) }
    {
        let Pass::Idle = self.pass else {
            return false;
        };
        self.pass = Pass::Begun;
        true
    }

    /// The pass's own freeze, which marks what is live and what is pinned. It is refused exactly where the
    /// pass doesn't wait for it, a flush is under way, or the numbers are used up.
    pub fn freeze_of_pass(&mut self, alloc: Global) -> Result<bool, NoMemory>
        ensures freezes { IfOk result (λ made. OnFalse made ((self.old.pass ≢ Begun) ⊎ CannotFreeze (lists_of self.old))) }
        ensures moves { IfOk result (λ made. OnTrue made (Makes has moves.freeze_of_pass (ledger_of self.old) (ledger_of self.new))) }
        ensures lists { IfOk result (λ made. OnTrue made (lists_of self.new ≡ with_marked (lists_of self.old))) }
        ensures refused { IfOk result (λ made. OnFalse made (lists_of self.new ≡ lists_of self.old)) }
        ensures err { OnErr result (lists_of self.new ≡ lists_of self.old) }
    {
        let Pass::Begun = self.pass else {
            return Ok(false);
        };
        let None = self.frozen_number else {
            return Ok(false);
        };
        let Some(number) = self.completed_number.checked_add(1) else {
            return Ok(false);
        };
        let frozen = joined(alloc, &self.live, &[])?;
        self.marked = joined(alloc, &self.live, &self.pins)?;
        self.frozen = frozen;
        self.frozen_number = Some(number);
        self.queued = mem::replace(&mut self.fresh, Vec::new(alloc));
        self.pass = Pass::Marked { number };
        Ok(true)
    }

    /// Begins the scan of the pass. It is refused exactly where the pass hasn't had its own freeze, or that
    /// freeze's header isn't out.
    pub fn begin_scan(&mut self) -> bool
        ensures scans { IsTrue result ↔ MayScan (lists_of self.old) }
        ensures moves { OnTrue result (Makes has moves.begin_scan (ledger_of self.old) (ledger_of self.new)) }
        ensures lists { OnTrue result (IsScanning (lists_of self.old) (lists_of self.new)) }
        ensures refused { OnFalse result (lists_of self.new ≡ lists_of self.old) }
    {
        let Pass::Marked { number } = self.pass else {
            return false;
        };
        if number > self.completed_number {
            return false;
        }
        self.pass = Pass::Scanning { number, applied: 0 };
        true
    }

    /// Gives the pass up. It is refused exactly where no pass runs, or it has applied a segment.
    pub fn end_pass(&mut self) -> bool
        ensures ends { IsTrue result ↔ MayEnd self.old.pass }
        ensures moves { OnTrue result (Makes has moves.end_pass (ledger_of self.old) (ledger_of self.new)) }
        ensures lists { OnTrue result (lists_of self.new ≡ record (lists_of self.old) { pass = Idle }) }
        ensures refused { OnFalse result (lists_of self.new ≡ lists_of self.old) }
    {
        if !may_end(self.pass) {
            return false;
        }
        self.pass = Pass::Idle;
        true
    }

    /// Applies the next segment of the pass. It is refused exactly where the pass doesn't scan, or the
    /// volume has no such segment.
    pub fn apply(&mut self) -> bool
        ensures applies { IsTrue result ↔ MayApply (lists_of self.old) }
        ensures moves { OnTrue result (MakesApply (ledger_of self.old) (ledger_of self.new)) }
        ensures lists { OnTrue result (IsAppliedNext (lists_of self.old) (lists_of self.new)) }
        ensures refused { OnFalse result (lists_of self.new ≡ lists_of self.old) }
    {
        let Pass::Scanning { number, applied } = self.pass else {
            return false;
        };
        if applied as usize >= self.codes.len() / 256 {
            return false;
        }
        apply_segment(&mut self.codes, SEGMENT_CHUNKS * applied, &self.marked);
        self.cursors = self.cursors.forget_free(&self.codes);
        self.pass = pass_after(number, applied, self.codes.len());
        true
    }
}
