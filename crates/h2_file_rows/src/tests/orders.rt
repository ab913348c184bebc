ghost use Rattle.std.specs.Prelude.{◌<◌};
ghost use Rattle.h2_memory_sets.specs.Seen.{forest_of};
ghost use Rattle.h2_node_rows.specs.VolumeUnderTest.{IsTop};

use super::blocks::Run;
use super::both::{Change, Failure, NUMBER, change_both, change_failing, compare, unload};
use super::files::Files;
use super::plain::PlainFile;
use std::process::Abort;
use std::test::Fail;

/// The number of the last block that a file may have.
const LAST: u64 = (1 << 26) - 1;

/// How many runs of blocks come in one order.
const RUNS: usize = 24;

/// The first blocks of the runs, and how many each has.
const PLACES: [(u64, u64); RUNS] = [
    (0, 1),
    (0, 2),
    (0, 65),
    (1, 1),
    (3, 2),
    (40, 2),
    (63, 2),
    (64, 1),
    (65, 2),
    (100, 2),
    (1 << 10, 1),
    ((1 << 10) + 64, 2),
    ((1 << 16) - 1, 2),
    (1 << 16, 1),
    (1 << 20, 1),
    ((1 << 20) + 65, 2),
    ((1 << 25) - 32, 2),
    ((1 << 25) - 1, 1),
    (1 << 25, 2),
    (3 << 24, 1),
    (LAST - 64, 65),
    (LAST - 1, 2),
    (LAST - 1, 1),
    (LAST, 1),
];

/// Blocks that are looked for each time, most of them in holes.
const PROBES: [u64; 12] = [
    0,
    2,
    62,
    99,
    200,
    1 << 11,
    (1 << 16) - 2,
    (1 << 20) - 1,
    (1 << 25) - 33,
    LAST - 65,
    LAST,
    LAST + 1,
];

/// Cuts past the end, at a block's edge and within a block, with another version of it or not, and blocks that come
/// between.
const CUTS: [Change; 18] = [
    Change::Cut((LAST + 1) << 14),
    Change::CutWithin((LAST << 14) + 100, 901),
    Change::Cut(LAST << 14),
    Change::CutWithin((((1 << 25) + 1) << 14) + 1, 902),
    Change::Cut((3 << 38) + 77),
    Change::CutWithin((((1 << 20) + 500) << 14) + 8000, 903),
    Change::CutWithin((((1 << 20) + 70) << 14) + 16383, 904),
    Change::Cut((1 << 30) + 1),
    Change::Cut(1 << 30),
    Change::CutWithin((102 << 14) + 3, 905),
    Change::Link(Run {
        first: 50,
        count: 65,
        version: 906,
    }),
    Change::CutWithin((64 << 14) + 1, 907),
    Change::LinkBehindZero(Run {
        first: 1,
        count: 65,
        version: 908,
    }),
    Change::CutWithin(513, 909),
    Change::Cut(512),
    Change::CutWithin(1, 910),
    Change::Cut(0),
    Change::Cut(0),
];

/// In which order the runs come.
#[derive(Clone, Copy, Debug, PartialEq, Eq)]
enum Order {
    Ascending,
    Descending,
    Scattered,
}

// The place in the table of the run that comes at a step. 7 and 24 have no common divisor, so that each comes once in
// 24 steps.
fn place_at(order: Order, step: usize) -> usize
    ensures { result < 24 }
{
    let step = step % RUNS;
    match order {
        Order::Ascending => step,
        Order::Descending => RUNS - 1 - step,
        Order::Scattered => (step * 7 + 5) % RUNS,
    }
}

// The blocks that come at a step; block 0 comes before every other run that begins behind it.
fn link_at(order: Order, step: usize) -> Change {
    let (first, count) = PLACES[place_at(order, step)];
    let run = Run {
        first,
        count,
        version: (step % 1000) as u64 + 1,
    };
    if first > 0 && step % 2 == 1 {
        return Change::LinkBehindZero(run);
    }
    Change::Link(run)
}

// How the loads of a step fail: those of every third one, and none in the first round.
fn failure_at(round: usize, step: usize) -> Option<Failure> {
    match step % 6 {
        1 if round > 0 => Some(Failure::Disk),
        4 if round > 0 => Some(Failure::Block),
        _ => None,
    }
}

// Makes a change, each load of which fails first in its turn where it is told how. How many loads failed.
fn change(
    rt: &(impl Abort + AllocGlobal),
    files: &mut Files,
    plain: &mut PlainFile,
    change: Change,
    failure: Option<Failure>,
) -> Result<u64, Fail>
    requires { IsTop (forest_of files.old.nodes) files.old.root.0 }
    ensures { IsTop (forest_of files.new.nodes) files.new.root.0 }
{
    match failure {
        Some(failure) => change_failing(rt, files, plain, change, failure, &PROBES),
        None => {
            assert_eq!(rt;
                change_both(rt, files, plain, change)?,
                Ok(()),
                "{change:?}"
            );
            compare(rt, files, plain, &PROBES)?;
            Ok(0)
        }
    }
}

// All runs come, and then the cuts. In the first round all is unloaded before each. How many loads failed.
fn fill_and_cut(
    rt: &(impl Abort + AllocGlobal),
    files: &mut Files,
    plain: &mut PlainFile,
    order: Order,
    round: usize,
) -> Result<u64, Fail>
    requires { IsTop (forest_of files.old.nodes) files.old.root.0 }
    ensures { IsTop (forest_of files.new.nodes) files.new.root.0 }
{
    let mut loads = 0u64;
    for step in 0..RUNS {
        if round == 0 {
            unload(files, plain);
        }
        let failure = failure_at(round, step);
        let taken = change(rt, files, plain, link_at(order, step), failure)?;
        loads = loads.saturating_add(taken);
        files.begin_epoch();
    }
    for cut in 0..CUTS.len() {
        let failure = failure_at(round, cut);
        let taken = change(rt, files, plain, CUTS[cut], failure)?;
        loads = loads.saturating_add(taken);
    }
    Ok(loads)
}

// A file that is filled and cut twice, the runs in one order.
fn fill_twice(rt: &(impl Abort + AllocGlobal), order: Order) -> Result<(), Fail> {
    let mut files = Files::new(rt.alloc())?;
    files.add(rt.alloc(), NUMBER)?;
    let mut plain = PlainFile::new(rt.alloc());
    for round in 0..2usize {
        let loads = fill_and_cut(rt, &mut files, &mut plain, order, round)?;
        assert!(rt; loads >= 14 * round as u64, "{loads} loads");
        assert_eq!(rt; plain.blocks.len(), 0);
    }
    Ok(())
}

#[test]
fn a_file_is_the_plain_list(rt: HostRuntime) -> Result<(), Fail> {
    for order in [Order::Ascending, Order::Descending, Order::Scattered] {
        fill_twice(&rt, order)?;
    }
    Ok(())
}
