ghost use Rattle.std.specs.Prelude.{◌≡◌, ◌↔◌, IsTrue, IfOk, OnOk, OnErr};
ghost use Rattle.h2_forest.specs.History.{IsLateScan, after_durable, ScansAreLate, HasEnded, IsNext, AreSums, with_applied, IsPassMark, after_pass_mark, HasAppliedNone, outcome_of, IsOutcome, after_outcome, IsPassItem, after_pass_item, EndsWell, PassesInOrder};
ghost use Rattle.h2_forest.specs.HistoryLaws.{SumsFit};

use crate::legality::{LastPass, Opening, Outcome, Pass};
use h2_command::{Command, Entry, Item, Mark, Reply};
use h2_num::NoMemory;
use std::alloc::Global;

fn is_late_scan(durable: &[u64], item: &Item) -> bool
    ensures { IsTrue result ↔ IsLateScan durable.now item.now }
{
    let Item::Mark(Mark::ScanBegin { number }) = item else {
        return true;
    };
    durable.contains(number)
}

/// The numbers whose header became durable, after one more item. Want of memory leaves them as they were.
fn note_durable(durable: &mut Vec<u64>, item: &Item) -> Result<(), NoMemory>
    ensures after { OnOk result (durable.new.items ≡ after_durable durable.old.items item.now) }
    ensures err { OnErr result (durable.new.items ≡ durable.old.items) }
{
    if let Item::Mark(Mark::HeaderDone { number, .. }) = item {
        durable.push(*number)?;
    }
    Ok(())
}

/// Whether each scan begins for a header that became durable before.
pub fn scans_are_late(alloc: Global, items: &[Item]) -> Result<bool, NoMemory>
    ensures { IfOk result (λ late. IsTrue late ↔ ScansAreLate items.now) }
{
    let mut durable = Vec::new(alloc);
    for item in items {
        if !is_late_scan(&durable, item) {
            return Ok(false);
        }
        note_durable(&mut durable, item)?;
    }
    Ok(true)
}

fn has_ended(segments: u32, pass: Pass) -> bool
    ensures { IsTrue result ↔ HasEnded segments pass }
{
    match pass {
        Pass::Idle => true,
        Pass::Scanned { applied, .. } => applied == 0 || applied == segments,
    }
}

fn is_next(segments: u32, segment: u32, pass: Pass) -> bool
    ensures { IsTrue result ↔ IsNext segments segment pass }
{
    match pass {
        Pass::Idle => false,
        Pass::Scanned { applied, .. } => segment == applied && segment < segments,
    }
}

fn are_sums(segments: u32, staged: u32, freed: u32, pass: Pass) -> bool
    ensures { IsTrue result ↔ AreSums segments staged freed pass }
{
    match pass {
        Pass::Idle => false,
        Pass::Scanned {
            applied,
            staged: s,
            freed: f,
        } => applied == segments && staged as u64 == s && freed as u64 == f,
    }
}

fn has_applied_none(pass: Pass) -> bool
    ensures { IsTrue result ↔ HasAppliedNone pass }
{
    match pass {
        Pass::Idle => true,
        Pass::Scanned { applied, .. } => applied == 0,
    }
}

/// What an entry says of the running pass.
fn outcome_of(entry: &Entry) -> Outcome
    ensures { result ≡ outcome_of entry.now }
{
    let Command::Bulkfree = &entry.command else {
        return Outcome::Pending;
    };
    match &entry.reply {
        Reply::Bulk { staged, freed, .. } => Outcome::Complete {
            staged: *staged,
            freed: *freed,
        },
        Reply::Io { .. } | Reply::BadBlock { .. } => Outcome::GivenUp,
        _ => Outcome::Pending,
    }
}

fn is_outcome(segments: u32, pass: Pass, outcome: Outcome) -> bool
    ensures { IsTrue result ↔ IsOutcome segments pass outcome }
{
    match outcome {
        Outcome::Pending => true,
        Outcome::GivenUp => has_applied_none(pass),
        Outcome::Complete { staged, freed } => are_sums(segments, staged, freed, pass),
    }
}

fn after_outcome(pass: Pass, outcome: Outcome) -> Pass
    requires { SumsFit pass }
    ensures after { result ≡ after_outcome pass outcome }
    ensures still_fit { SumsFit result }
{
    match outcome {
        Outcome::Pending => pass,
        Outcome::GivenUp => Pass::Idle,
        Outcome::Complete { .. } => Pass::Idle,
    }
}

fn is_pass_item(segments: u32, pass: Pass, item: &Item) -> bool
    ensures { IsTrue result ↔ IsPassItem segments pass item.now }
{
    match item {
        Item::Call(entry) => is_outcome(segments, pass, outcome_of(entry)),
        Item::Mark(mark) => match mark {
            Mark::ScanBegin { .. } => has_ended(segments, pass),
            Mark::Applied { segment, .. } => is_next(segments, *segment, pass),
            _ => true,
        },
    }
}

fn with_applied(segments: u32, segment: u32, pass: Pass, staged: u32, freed: u32) -> Pass
    requires next { IsNext segments segment pass }
    requires fit { SumsFit pass }
    ensures after { result ≡ with_applied pass staged freed }
    ensures still_fit { SumsFit result }
{
    match pass {
        Pass::Idle => Pass::Idle,
        Pass::Scanned {
            applied,
            staged: s,
            freed: f,
        } => Pass::Scanned {
            applied: applied + 1,
            staged: s + staged as u64,
            freed: f + freed as u64,
        },
    }
}

fn after_pass_item(segments: u32, pass: Pass, item: &Item) -> Pass
    requires allowed { IsPassItem segments pass item.now }
    requires fit { SumsFit pass }
    ensures after { result ≡ after_pass_item pass item.now }
    ensures still_fit { SumsFit result }
{
    match item {
        Item::Call(entry) => after_outcome(pass, outcome_of(entry)),
        Item::Mark(mark) => match mark {
            Mark::ScanBegin { .. } => Pass::Scanned {
                applied: 0,
                staged: 0,
                freed: 0,
            },
            Mark::Applied {
                segment,
                staged,
                freed,
            } => with_applied(segments, *segment, pass, *staged, *freed),
            _ => pass,
        },
    }
}

fn ends_well(opening: Opening, pass: Pass) -> bool
    ensures { IsTrue result ↔ EndsWell opening pass }
{
    match opening.last_pass {
        LastPass::Runs => true,
        LastPass::Ended => has_ended(opening.segments, pass),
    }
}

/// Whether passes stand one after the other, each Bulk has the sums of its pass, and a pass that was given up
/// has applied nothing.
pub fn passes_are_in_order(opening: Opening, items: &[Item]) -> bool
    ensures { IsTrue result ↔ PassesInOrder opening items.now }
{
    let mut pass = Pass::Idle;
    for item in items {
        if !is_pass_item(opening.segments, pass, item) {
            return false;
        }
        pass = after_pass_item(opening.segments, pass, item);
    }
    ends_well(opening, pass)
}
