//! Loads of a directory that fail, one after the other, until a call needs no more.
ghost use Rattle.std.specs.Prelude.{OnOk};
ghost use Rattle.h2_memory_sets.specs.Seen.{forest_of};
ghost use Rattle.h2_node_rows.specs.VolumeUnderTest.{IsTop};

use super::directory::Directory;
use super::making::{DIRECTORY_PLACE, PFS_PLACE};
use super::names::{Order, Row, some_rows};
use super::table::{add_row, compare_list, fill, with_names};
use h2_dir::DirFault;
use h2_num::{Names, NoMemory};
use h2_ref::{Trouble, Why};
use std::alloc::Global;
use std::process::Abort;
use std::test::Fail;

/// How many names there are: enough for blocks of references.
const NAMES: u64 = 48;

/// No call needs more loads than this.
const MOST_LOADS: u64 = 100;

/// Where each block of references lies in memory.
const NODE_PLACE: u64 = 1 << 22;

/// How a load fails.
#[derive(Clone, Copy)]
enum Failure {
    Disk,
    /// It meets a bad block. The call needs so many loads.
    Block { loads: u64 },
}

/// A call that needs loads.
#[derive(Clone, Copy, Debug, PartialEq, Eq)]
enum Call {
    Find,
    Walk,
    Spot,
    Add,
    Remove,
    List,
}

/// The places of names of 64 and of 255 bytes.
const TRIED: [usize; 2] = [10, 6];

/// What is called with each of them, which is in before and after.
const CALLS: [Call; 6] = [
    Call::Find,
    Call::Walk,
    Call::Remove,
    Call::Spot,
    Call::Add,
    Call::List,
];

// The path with the name of a row.
fn path(alloc: Global, row: &Row) -> Result<Names, NoMemory> {
    let mut names = Names::new(alloc);
    names.push(row.name.copy(alloc)?)?;
    Ok(names)
}

// One call with the name of a row. Whether the answer is right for the row, which is in or out afterwards.
fn call_on(alloc: Global, dir: &mut Directory, row: &mut Row, call: Call) -> Result<bool, DirFault>
    requires { IsTop (forest_of dir.old.nodes) dir.old.root.0 }
    ensures { IsTop (forest_of dir.new.nodes) dir.new.root.0 }
{
    match call {
        Call::Find => {
            let (_key, entry) = dir.find(alloc, row.name.as_slice())?;
            Ok(row.is_told_by(&entry))
        }
        Call::Walk => {
            let Ok(names) = path(alloc, row) else {
                return Err(DirFault::Trouble(Trouble::NoMemory));
            };
            let number = dir.walk(alloc, &names)?;
            Ok(number == row.number)
        }
        Call::Spot => {
            dir.spot(alloc, row.name.as_slice())?;
            Ok(!row.is_in)
        }
        Call::Add => {
            dir.add(alloc, row.entry())?;
            row.is_in = true;
            Ok(true)
        }
        Call::Remove => {
            let (_key, entry) = dir.remove(alloc, row.name.as_slice())?;
            row.is_in = false;
            Ok(row.is_told_by(&entry))
        }
        Call::List => {
            dir.list(alloc)?;
            Ok(true)
        }
    }
}

// How many names a call reads that have a block: it reads them last.
fn names_read(rows: &[Row], place: usize, call: Call) -> u64 {
    let mut long = 0u64;
    for i in 0..rows.len() {
        let is_read = match call {
            Call::Find | Call::Walk | Call::Remove => i == place,
            Call::List => rows[i].is_in,
            Call::Spot | Call::Add => false,
        };
        if is_read && rows[i].block.is_some() {
            long = long.saturating_add(1);
        }
    }
    long
}

// Whether the block of a name that is in lies there.
fn is_name_place(rows: &[Row], place: u64) -> bool {
    rows.iter().any(|row| row.is_in && row.block == Some(place))
}

// Whether this is met where the load of this number fails. The two inodes come first, and the names last.
fn is_expected(rows: &[Row], trouble: Trouble, which: u64, failure: Failure, names: u64) -> bool {
    let Failure::Block { loads } = failure else {
        return trouble == Trouble::Failed;
    };
    let Trouble::Bad { place, why } = trouble else {
        return false;
    };
    let is_name = which > loads.saturating_sub(names);
    match why {
        Why::Inode => which == 1 && place == PFS_PLACE || which == 2 && place == DIRECTORY_PLACE,
        Why::Shape => which > 2 && !is_name && place == NODE_PLACE,
        Why::Name => which > 2 && is_name && is_name_place(rows, place),
        _ => false,
    }
}

// Lets the load of this number fail.
fn fail_from(dir: &mut Directory, failure: Failure, which: u64)
    requires { IsTop (forest_of dir.old.nodes) dir.old.root.0 }
    ensures { IsTop (forest_of dir.new.nodes) dir.new.root.0 }
{
    match failure {
        Failure::Disk => dir.fail_load(which),
        Failure::Block { loads: _ } => dir.spoil_load(which),
    }
}

// Calls on the name at a place, with everything unloaded, and the load of this number fails. None where the call
// needs no such load.
fn fail_once(
    alloc: Global,
    dir: &mut Directory,
    row: &mut Row,
    call: Call,
    failure: Failure,
    which: u64,
) -> Result<Option<Trouble>, Fail>
    requires { IsTop (forest_of dir.old.nodes) dir.old.root.0 }
    ensures { OnOk result (IsTop (forest_of dir.new.nodes) dir.new.root.0) }
{
    dir.unload();
    fail_from(dir, failure, which);
    let outcome = call_on(alloc, dir, row, call);
    dir.fail_load(0);
    dir.spoil_load(0);
    match outcome {
        Ok(true) => Ok(None),
        Err(DirFault::Trouble(trouble)) => Ok(Some(trouble)),
        _ => Err(Fail::new("another answer")),
    }
}

// Lets each load of a call fail in turn, and compares the list after each. How many loads there are.
fn fail_each(
    rt: &(impl Abort + AllocGlobal),
    dir: &mut Directory,
    rows: &mut Vec<Row>,
    place: usize,
    call: Call,
    failure: Failure,
) -> Result<u64, Fail>
    requires { IsTop (forest_of dir.old.nodes) dir.old.root.0 }
    ensures { OnOk result (IsTop (forest_of dir.new.nodes) dir.new.root.0) }
{
    let names = names_read(rows, place, call);
    for which in 1..MOST_LOADS {
        let Some(row) = rows.get_mut(place) else {
            return Err(Fail::new("no row"));
        };
        let met = fail_once(rt.alloc(), dir, row, call, failure, which)?;
        compare_list(rt, dir, rows)?;
        let Some(trouble) = met else {
            return Ok(which - 1);
        };
        assert!(rt;
            is_expected(rows, trouble, which, failure, names),
            "{call:?}, load {which}: {trouble:?}"
        );
    }
    Err(Fail::new("too many loads"))
}

// Takes back what a call did. Whether the answer is right for the row.
fn undo(alloc: Global, dir: &mut Directory, row: &mut Row, call: Call) -> Result<bool, DirFault>
    requires { IsTop (forest_of dir.old.nodes) dir.old.root.0 }
    ensures { IsTop (forest_of dir.new.nodes) dir.new.root.0 }
{
    match call {
        Call::Add => call_on(alloc, dir, row, Call::Remove),
        Call::Remove => call_on(alloc, dir, row, Call::Add),
        Call::Find | Call::Walk | Call::Spot | Call::List => Ok(true),
    }
}

// Lets the disk fail, and then bad blocks be met.
fn fail_both(
    rt: &(impl Abort + AllocGlobal),
    dir: &mut Directory,
    rows: &mut Vec<Row>,
    place: usize,
    call: Call,
) -> Result<(), Fail>
    requires { IsTop (forest_of dir.old.nodes) dir.old.root.0 }
    ensures { OnOk result (IsTop (forest_of dir.new.nodes) dir.new.root.0) }
{
    let loads = fail_each(rt, dir, rows, place, call, Failure::Disk)?;
    // Both inodes, and a block of references.
    assert!(rt; loads >= 3, "{call:?}");
    let Some(row) = rows.get_mut(place) else {
        return Err(Fail::new("no row"));
    };
    let undone = undo(rt.alloc(), dir, row, call);
    assert_eq!(rt; undone, Ok(true), "{call:?}");
    let again = fail_each(rt, dir, rows, place, call, Failure::Block { loads })?;
    assert_eq!(rt; again, loads, "{call:?}");
    Ok(())
}

#[test]
fn each_load_fails_and_nothing_is_lost(rt: HostRuntime) -> Result<(), Fail> {
    let alloc = rt.alloc();
    let mut rows = some_rows(alloc, NAMES)?;
    let mut dir = with_names(alloc, &rows)?;
    fill(&rt, &mut dir, &mut rows, Order::Shuffled)?;
    for place in TRIED {
        for call in CALLS {
            fail_both(&rt, &mut dir, &mut rows, place, call)?;
        }
    }
    Ok(())
}

#[test]
fn a_list_reads_each_block_once(rt: HostRuntime) -> Result<(), Fail> {
    let alloc = rt.alloc();
    let mut rows = some_rows(alloc, 8)?;
    let mut dir = with_names(alloc, &rows)?;
    // Four names with a block, and one without.
    for place in 3..8 {
        let Some(row) = rows.get_mut(place) else {
            return Err(Fail::new("no row"));
        };
        add_row(&rt, &mut dir, row)?;
    }
    let loads = fail_each(&rt, &mut dir, &mut rows, 3, Call::List, Failure::Disk)?;
    // Both inodes, a block of references, since a root has room for four, and four names.
    assert_eq!(rt; loads, 7);
    Ok(())
}
