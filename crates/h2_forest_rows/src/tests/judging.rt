use h2_command::{Command, Entry, History, Item, Mark, Reply, Why};
use h2_forest::{Forest, LastPass, Legality, Opening, judge, may_land};
use std::alloc::Global;
use std::test::Fail;

// A command with its reply.
#[derive(Clone, Copy)]
enum Told {
    Synced,
    SyncRefused,
    SyncFailed(u64, u64),
    Passed(u32, u32),
    PassFailed(u64, u64),
    PassMetBadBlock,
    PassWithoutMemory,
}

// An item: a mark with its numbers, or an entry with its phase, its client, its index and what is told.
#[derive(Clone, Copy)]
enum Step {
    Freeze(u64, u64),
    Out(u64, u64),
    Durable(u64, u64),
    Scan(u64),
    Applied(u32, u32, u32),
    Call(u32, u32, u32, Told),
}

// A run of two clients on a volume of two segments that was opened at header 1: a sync, a whole pass of
// bulkfree, a pass that was given up, and a sync whose disk failed.
const RUN: [Step; 18] = [
    Step::Freeze(2, 0),
    Step::Out(2, 3),
    Step::Durable(2, 5),
    Step::Call(0, 0, 0, Told::Synced),
    Step::Freeze(3, 5),
    Step::Out(3, 8),
    Step::Out(3, 9),
    Step::Durable(3, 11),
    Step::Scan(3),
    Step::Applied(0, 1, 0),
    Step::Applied(1, 2, 5),
    Step::Call(0, 1, 0, Told::Passed(3, 5)),
    Step::Freeze(4, 11),
    Step::Out(4, 13),
    Step::Durable(4, 15),
    Step::Scan(4),
    Step::Call(0, 1, 1, Told::PassFailed(0, 1)),
    Step::Call(1, 0, 1, Told::SyncFailed(1, 3)),
];

// A place of the run, what stands there instead, and the only part that doesn't hold then; none of them
// where the run is legal all the same.
const CHANGES: [(usize, Step, &str); 20] = [
    (3, Step::Call(0, 0, 0, Told::SyncRefused), "replies"),
    (3, Step::Call(0, 0, 0, Told::Passed(0, 0)), "passes"),
    (17, Step::Call(1, 0, 1, Told::SyncFailed(0, 3)), "faults"),
    (17, Step::Call(1, 0, 1, Told::SyncFailed(3, 3)), "faults"),
    (
        17,
        Step::Call(1, 0, 1, Told::SyncFailed(1, u64::MAX)),
        "none",
    ),
    (17, Step::Call(1, 0, 2, Told::Synced), "indices"),
    (16, Step::Call(2, 1, 1, Told::PassFailed(0, 1)), "phases"),
    (4, Step::Freeze(4, 5), "flushes"),
    (1, Step::Durable(2, 3), "flushes"),
    (6, Step::Out(3, 7), "moments"),
    (8, Step::Scan(4), "scans"),
    (10, Step::Applied(0, 2, 5), "passes"),
    (9, Step::Applied(1, 1, 0), "passes"),
    (10, Step::Scan(3), "passes"),
    (11, Step::Call(0, 1, 0, Told::Passed(3, 6)), "passes"),
    (11, Step::Call(0, 1, 0, Told::PassMetBadBlock), "passes"),
    (17, Step::Applied(0, 0, 0), "passes"),
    (16, Step::Call(0, 1, 1, Told::PassMetBadBlock), "none"),
    (16, Step::Call(0, 1, 1, Told::PassWithoutMemory), "none"),
    (16, Step::Applied(0, 0, 0), "passes"),
];

const PARTS: [&str; 8] = [
    "replies", "faults", "indices", "phases", "flushes", "moments", "scans", "passes",
];

fn command(told: Told) -> Command {
    match told {
        Told::Synced | Told::SyncRefused | Told::SyncFailed(_, _) => Command::Sync,
        _ => Command::Bulkfree,
    }
}

fn reply(told: Told) -> Reply {
    match told {
        Told::Synced => Reply::Done,
        Told::SyncRefused => Reply::NoEntry,
        Told::SyncFailed(before, after) | Told::PassFailed(before, after) => {
            Reply::Io { before, after }
        }
        Told::Passed(staged, freed) => Reply::Bulk {
            seen: 4,
            staged,
            freed,
        },
        Told::PassMetBadBlock => Reply::BadBlock {
            place: 4_195_328,
            why: Why::Inode,
        },
        Told::PassWithoutMemory => Reply::NoMemory,
    }
}

fn mark(step: Step) -> Option<Mark> {
    match step {
        Step::Freeze(number, moment) => Some(Mark::Freeze { number, moment }),
        Step::Out(number, moment) => Some(Mark::HeaderOut { number, moment }),
        Step::Durable(number, moment) => Some(Mark::HeaderDone { number, moment }),
        Step::Scan(number) => Some(Mark::ScanBegin { number }),
        Step::Applied(segment, staged, freed) => Some(Mark::Applied {
            segment,
            staged,
            freed,
        }),
        Step::Call(..) => None,
    }
}

fn entry(step: Step) -> Option<Entry> {
    let Step::Call(phase, client, index, told) = step else {
        return None;
    };
    Some(Entry {
        phase,
        client,
        index,
        command: command(told),
        reply: reply(told),
    })
}

fn item(step: Step) -> Option<Item> {
    match mark(step) {
        Some(mark) => Some(Item::Mark(mark)),
        None => Some(Item::Call(entry(step)?)),
    }
}

// The first steps of the run, with another one at a place.
fn history(alloc: Global, count: usize, place: usize, other: Step) -> Result<History, Fail> {
    let mut history = History::new(alloc);
    for (i, step) in RUN.iter().take(count).enumerate() {
        let step = if i == place { other } else { *step };
        history
            .push(item(step).ok_or("no item")?)
            .ok()
            .ok_or("memory")?;
    }
    Ok(history)
}

fn judged(alloc: Global, history: &History, last_pass: LastPass) -> Result<Legality, Fail> {
    if !history.is_lawful() {
        return Err("not lawful".into());
    }
    if history.items().len() >= 4_294_967_296 {
        return Err("too long".into());
    }
    let opening = Opening {
        number: 1,
        segments: 2,
        last_pass,
    };
    let fresh = Forest::fresh(alloc).ok().ok_or("memory")?;
    Ok(judge(alloc, opening, fresh, history).ok().ok_or("memory")?)
}

fn parts(l: &Legality) -> [bool; 8] {
    [
        l.replies, l.faults, l.indices, l.phases, l.flushes, l.moments, l.scans, l.passes,
    ]
}

#[test]
fn each_part_is_judged(rt: HostRuntime) -> Result<(), Fail> {
    for (place, other, wrong) in &CHANGES {
        let history = history(rt.alloc(), 18, *place, *other)?;
        let legality = judged(rt.alloc(), &history, LastPass::Ended)?;
        for (part, holds) in PARTS.iter().zip(parts(&legality).iter()) {
            assert_eq!(rt; *holds, part != wrong, "{part} at {place}");
        }
        assert_eq!(rt; legality.is_legal(), *wrong == "none");
    }
    Ok(())
}

#[test]
fn a_run_is_legal_at_each_place(rt: HostRuntime) -> Result<(), Fail> {
    for count in 0..19usize {
        let history = history(rt.alloc(), count, 18, Step::Scan(1))?;
        let running = judged(rt.alloc(), &history, LastPass::Runs)?;
        assert!(rt; running.is_legal(), "up to {count}");
        // a pass that has begun to apply its segments has not ended
        let ended = judged(rt.alloc(), &history, LastPass::Ended)?;
        assert_eq!(rt; ended.is_legal(), count != 10, "up to {count}");
    }
    Ok(())
}

#[test]
fn a_cut_lands_on_a_durable_header_or_the_next(rt: HostRuntime) -> Result<(), Fail> {
    let history = history(rt.alloc(), 18, 18, Step::Scan(1))?;
    // the moment, the newest durable header, and whether the next one may be there
    let landings = [
        (0, 1, false),
        (2, 1, false),
        (3, 1, true),
        (4, 1, true),
        (5, 2, false),
        (7, 2, false),
        (8, 2, true),
        (10, 2, true),
        (11, 3, false),
        (13, 3, true),
        (15, 4, false),
        (99, 4, false),
    ];
    for (moment, newest, out) in &landings {
        for number in 0..7u64 {
            let may = may_land(1, history.items(), *moment, number);
            let want = number == *newest || (*out && number == newest.saturating_add(1));
            assert_eq!(rt; may, want, "header {number} at {moment}");
        }
    }
    Ok(())
}
