use super::*;
use crate::blocks::joined;
use h2_codes::Code;
use h2_ledger::SharedSize;
use h2_num::{Block, NoMemory};
use std::alloc::Global;
use std::test::Fail;

// A move, as the cases are made of them.
#[derive(Clone, Copy)]
enum Step {
    // Take a block of 16 KiB; a block of 1 KiB in a new chunk; a block of 1 KiB at the cursor.
    TakeWhole,
    TakeFirst,
    TakeNext,
    // All pins become live.
    Commit,
    // The live tree loses its blocks in a chunk.
    Remove(u64),
    // A flush: freeze, and its header is out.
    Freeze,
    Complete,
    // A pass: it begins, its own freeze, its scan begins, it applies a segment, it is given up.
    Begin,
    FreezeOfPass,
    Scan,
    Apply,
    End,
}

// What a whole pass does with nothing in between; the volume has two segments.
const PASS: [Step; 6] = [
    Step::Begin,
    Step::FreezeOfPass,
    Step::Complete,
    Step::Scan,
    Step::Apply,
    Step::Apply,
];

// The first chunk that isn't reserved.
const FIRST: usize = 256;

// The blocks without those in a chunk.
fn without(alloc: Global, blocks: &[Block], chunk: u64) -> Result<Vec<Block>, NoMemory> {
    let mut left = Vec::new(alloc);
    for block in blocks {
        if block.place / 16384 != chunk {
            left.push(*block)?;
        }
    }
    Ok(left)
}

// Makes the move, and says whether it was made.
fn make(ledger: &mut PlainLedger, alloc: Global, step: Step) -> Result<bool, NoMemory> {
    match step {
        Step::TakeWhole => Ok(ledger.take_whole(Payment::FromFree)?.is_some()),
        Step::TakeFirst => Ok(
            ledger
                .take_first(SharedSize::Small, Payment::FromFree)?
                .is_some(),
        ),
        Step::TakeNext => Ok(ledger.take_next(SharedSize::Small)?.is_some()),
        Step::Commit => {
            let live = joined(alloc, &ledger.live, &ledger.pins)?;
            Ok(ledger.relink(live, Vec::new(alloc)))
        }
        Step::Remove(chunk) => {
            let live = without(alloc, &ledger.live, chunk)?;
            let pins = joined(alloc, &ledger.pins, &[])?;
            Ok(ledger.relink(live, pins))
        }
        Step::Freeze => ledger.freeze(alloc),
        Step::Complete => Ok(ledger.complete(alloc)),
        Step::Begin => Ok(ledger.begin_pass()),
        Step::FreezeOfPass => ledger.freeze_of_pass(alloc),
        Step::Scan => Ok(ledger.begin_scan()),
        Step::Apply => Ok(ledger.apply()),
        Step::End => Ok(ledger.end_pass()),
    }
}

// A volume of two segments, the first of which is reserved, with an empty tree under header 1.
fn volume(alloc: Global) -> Result<PlainLedger, NoMemory> {
    let mut codes = vec![in alloc; Code::Free; 512]?;
    for chunk in 0..FIRST {
        codes[chunk] = Code::Reserved;
    }
    Ok(PlainLedger::open(alloc, codes, 1))
}

// The code of a chunk.
fn code(ledger: &PlainLedger, chunk: usize) -> Code {
    match ledger.codes.get(chunk) {
        Some(code) => *code,
        None => Code::Reserved,
    }
}

// Makes the moves, and gives the codes of the first three chunks that aren't reserved; None where a move was refused.
fn after(
    ledger: &mut PlainLedger,
    alloc: Global,
    steps: &[Step],
) -> Result<Option<[Code; 3]>, NoMemory> {
    for step in steps {
        if !make(ledger, alloc, *step)? {
            return Ok(None);
        }
    }
    Ok(Some([
        code(ledger, FIRST),
        code(ledger, FIRST + 1),
        code(ledger, FIRST + 2),
    ]))
}

#[test]
fn a_removed_file_is_freed_by_two_passes(rt: HostRuntime) -> Result<(), Fail> {
    use Code::{Free, Staged, Used};
    use Step::{Commit, Complete, Freeze, Remove, TakeWhole};
    let alloc = rt.alloc();
    let mut ledger = volume(alloc)?;
    // Two files of a chunk each are flushed. The first is removed, and the passes free its chunk, which is
    // then the lowest free one again.
    let made = after(
        &mut ledger,
        alloc,
        &[TakeWhole, TakeWhole, Commit, Freeze, Complete],
    )?;
    assert_eq!(rt; made, Some([Used, Used, Free]));
    assert_eq!(rt;
        after(&mut ledger, alloc, &[Remove(256)])?,
        Some([Used, Used, Free])
    );
    assert_eq!(rt;
        after(&mut ledger, alloc, &PASS)?,
        Some([Staged, Used, Free])
    );
    assert_eq!(rt; after(&mut ledger, alloc, &PASS)?, Some([Free, Used, Free]));
    assert_eq!(rt;
        after(&mut ledger, alloc, &[TakeWhole])?,
        Some([Used, Used, Free])
    );
    Ok(())
}

#[test]
fn a_block_put_after_the_freeze_survives(rt: HostRuntime) -> Result<(), Fail> {
    use Code::{Free, Staged, Used};
    use Step::{Apply, Begin, Commit, Complete, FreezeOfPass, Scan, TakeWhole};
    let alloc = rt.alloc();
    let mut ledger = volume(alloc)?;
    // One command's block is pinned at the freeze and one is put after it. The pass marked the first
    // alone, so it stages the second, which the next pass finds in use.
    let frozen = after(&mut ledger, alloc, &[TakeWhole, Begin, FreezeOfPass])?;
    assert_eq!(rt; frozen, Some([Used, Free, Free]));
    let put = after(&mut ledger, alloc, &[TakeWhole, Complete, Scan])?;
    assert_eq!(rt; put, Some([Used, Used, Free]));
    assert_eq!(rt;
        after(&mut ledger, alloc, &[Apply, Apply])?,
        Some([Used, Staged, Free])
    );
    assert_eq!(rt;
        after(&mut ledger, alloc, &[Commit])?,
        Some([Used, Staged, Free])
    );
    assert_eq!(rt; after(&mut ledger, alloc, &PASS)?, Some([Used, Used, Free]));
    Ok(())
}

#[test]
fn a_cursor_may_stay_in_a_staged_chunk(rt: HostRuntime) -> Result<(), Fail> {
    use Code::{Free, Staged, Used};
    use Step::{Commit, Remove, TakeFirst, TakeNext};
    let alloc = rt.alloc();
    let mut ledger = volume(alloc)?;
    // The chunk is staged while the cursor is in it. A block at the cursor makes it used again.
    assert_eq!(rt;
        after(&mut ledger, alloc, &[TakeFirst, Commit])?,
        Some([Used, Free, Free])
    );
    assert_eq!(rt;
        after(&mut ledger, alloc, &[Remove(256)])?,
        Some([Used, Free, Free])
    );
    assert_eq!(rt;
        after(&mut ledger, alloc, &PASS)?,
        Some([Staged, Free, Free])
    );
    assert_eq!(rt;
        after(&mut ledger, alloc, &[TakeNext, Commit])?,
        Some([Used, Free, Free])
    );
    assert_eq!(rt;
        ledger.live.as_slice(),
        [Block {
            place: 256 * 16384 + 1024,
            radix: 10
        }]
        .as_slice()
    );
    // Once it is free the cursor is forgotten, and the next block begins a chunk.
    assert_eq!(rt;
        after(&mut ledger, alloc, &[Remove(256)])?,
        Some([Used, Free, Free])
    );
    assert_eq!(rt;
        after(&mut ledger, alloc, &PASS)?,
        Some([Staged, Free, Free])
    );
    assert_eq!(rt; after(&mut ledger, alloc, &PASS)?, Some([Free, Free, Free]));
    assert_eq!(rt; after(&mut ledger, alloc, &[TakeNext])?, None);
    assert_eq!(rt;
        after(&mut ledger, alloc, &[TakeFirst])?,
        Some([Used, Free, Free])
    );
    Ok(())
}

#[test]
fn a_second_flush_during_a_pass(rt: HostRuntime) -> Result<(), Fail> {
    use Code::{Free, Staged, Used};
    use Step::{Apply, Begin, Commit, Complete, Freeze, FreezeOfPass, Remove, Scan, TakeWhole};
    let alloc = rt.alloc();
    let mut ledger = volume(alloc)?;
    // A file is there at the pass's freeze, and is removed before its scan ends; another is written and
    // flushed meanwhile. The pass leaves the first used and stages the second; the next pass turns it round.
    let begun = after(
        &mut ledger,
        alloc,
        &[TakeWhole, Commit, Begin, FreezeOfPass],
    )?;
    assert_eq!(rt; begun, Some([Used, Free, Free]));
    let flushed = after(
        &mut ledger,
        alloc,
        &[Complete, Scan, Remove(256), TakeWhole, Commit, Freeze],
    )?;
    assert_eq!(rt; flushed, Some([Used, Used, Free]));
    let applied = after(&mut ledger, alloc, &[Apply, TakeWhole, Complete, Apply])?;
    assert_eq!(rt; applied, Some([Used, Staged, Staged]));
    assert_eq!(rt;
        after(&mut ledger, alloc, &PASS)?,
        Some([Staged, Used, Used])
    );
    Ok(())
}

#[test]
fn what_may_not_be_done_is_refused(rt: HostRuntime) -> Result<(), Fail> {
    use Step::{Apply, Begin, Complete, End, Freeze, FreezeOfPass, Scan};
    let alloc = rt.alloc();
    // Each list ends with a move that is refused: no flush to complete, a freeze during a flush, a freeze
    // of no pass, a scan without the pass's own freeze or before its header, a segment without a scan, a
    // segment too many, a second pass, and the end of a pass that has applied a segment.
    let refused: [&[Step]; 10] = [
        &[Complete],
        &[Freeze, Freeze],
        &[FreezeOfPass],
        &[Begin, Freeze, FreezeOfPass],
        &[Begin, Freeze, Complete, Scan],
        &[Begin, FreezeOfPass, Scan],
        &[Begin, FreezeOfPass, Complete, Apply],
        &[Begin, FreezeOfPass, Complete, Scan, Apply, Apply, Apply],
        &[Begin, Begin],
        &[Begin, FreezeOfPass, Complete, Scan, Apply, End],
    ];
    for steps in refused {
        let before = steps.len() - 1;
        assert!(rt; after(&mut volume(alloc)?, alloc, &steps[..before])?.is_some());
        assert!(rt; after(&mut volume(alloc)?, alloc, steps)?.is_none());
    }
    Ok(())
}

#[test]
fn reservations_and_shared_blocks(rt: HostRuntime) -> Result<(), Fail> {
    let alloc = rt.alloc();
    let mut ledger = volume(alloc)?;
    assert_eq!(rt; ledger.free(), 256);
    assert!(rt; ledger.reserve(256));
    assert!(rt; !ledger.reserve(1));
    assert_eq!(rt; ledger.take_whole(Payment::FromFree)?, None);
    let block = Block {
        place: 256 * 16384,
        radix: 14,
    };
    assert_eq!(rt; ledger.take_whole(Payment::FromReserved)?, Some(block));
    assert!(rt; ledger.release(255));
    assert!(rt; !ledger.release(1));
    assert!(rt; ledger.adopt(block)?);
    let free = Block {
        place: 257 * 16384,
        radix: 10,
    };
    assert!(rt; !ledger.adopt(free)?);
    Ok(())
}
