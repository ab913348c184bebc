//! A directory against the rows that it is to have, in whatever order they come and go.
ghost use Rattle.std.specs.Prelude.{IfOk, OnOk};
ghost use Rattle.h2_memory_sets.specs.Seen.{forest_of};
ghost use Rattle.h2_node_rows.specs.VolumeUnderTest.{IsTop};

use super::directory::Directory;
use super::names::{Order, Row, place_at, some_rows};
use h2_dir::DirFault;
use h2_num::NoMemory;
use std::alloc::Global;
use std::process::Abort;
use std::test::Fail;

/// Rows are added in one order, and taken out in another.
const ORDERS: [(Order, Order); 3] = [
    (Order::Ascending, Order::Shuffled),
    (Order::Descending, Order::Ascending),
    (Order::Shuffled, Order::Descending),
];

/// How many names there are.
const NAMES: u64 = 200;

/// After so many changes all names are looked for.
const LOOK: usize = 50;

/// After so many changes the directory is unloaded.
const UNLOAD: usize = 23;

/// Compares the list of a directory with the rows that are in.
pub(super) fn compare_list(
    rt: &(impl Abort + AllocGlobal),
    dir: &mut Directory,
    rows: &[Row],
) -> Result<(), Fail>
    requires { IsTop (forest_of dir.old.nodes) dir.old.root.0 }
    ensures { OnOk result (IsTop (forest_of dir.new.nodes) dir.new.root.0) }
{
    let Ok(listed) = dir.list(rt.alloc()) else {
        return Err(Fail::new("no list"));
    };
    let mut at = 0usize;
    for row in rows {
        if row.is_in {
            let Some((name, number)) = listed.get(at) else {
                return Err(Fail::new("a name isn't listed"));
            };
            assert_eq!(rt; *name, row.name);
            assert_eq!(rt; *number, row.number);
            at = at.saturating_add(1);
        }
    }
    assert_eq!(rt; at, listed.len());
    Ok(())
}

/// Looks for the name of a row.
pub(super) fn compare_row(
    rt: &(impl Abort + AllocGlobal),
    dir: &mut Directory,
    row: &Row,
) -> Result<(), Fail>
    requires { IsTop (forest_of dir.old.nodes) dir.old.root.0 }
    ensures { OnOk result (IsTop (forest_of dir.new.nodes) dir.new.root.0) }
{
    let (name, number) = (row.name.as_slice(), row.number);
    match dir.find(rt.alloc(), name) {
        Ok((_key, entry)) => assert!(rt; row.is_in && row.is_told_by(&entry), "{number}"),
        Err(fault) => assert!(rt; !row.is_in && fault == DirFault::NoEntry, "{number}"),
    }
    Ok(())
}

// Looks for all names.
fn compare_all(
    rt: &(impl Abort + AllocGlobal),
    dir: &mut Directory,
    rows: &[Row],
) -> Result<(), Fail>
    requires { IsTop (forest_of dir.old.nodes) dir.old.root.0 }
    ensures { OnOk result (IsTop (forest_of dir.new.nodes) dir.new.root.0) }
{
    for row in rows {
        compare_row(rt, dir, row)?;
    }
    compare_list(rt, dir, rows)
}

/// Adds a row that isn't in, and compares what is said of its name.
pub(super) fn add_row(
    rt: &(impl Abort + AllocGlobal),
    dir: &mut Directory,
    row: &mut Row,
) -> Result<(), Fail>
    requires { IsTop (forest_of dir.old.nodes) dir.old.root.0 }
    ensures { OnOk result (IsTop (forest_of dir.new.nodes) dir.new.root.0) }
{
    let alloc = rt.alloc();
    let number = row.number;
    let key = dir.spot(alloc, row.name.as_slice());
    assert!(rt; key.is_ok(), "{number}");
    assert_eq!(rt; dir.add(alloc, row.entry()), key, "{number}");
    row.is_in = true;
    let exists = Err(DirFault::Exists);
    assert_eq!(rt; dir.spot(alloc, row.name.as_slice()), exists, "{number}");
    assert_eq!(rt; dir.add(alloc, row.entry()), exists, "{number}");
    compare_row(rt, dir, row)
}

// Takes a row out that is in, and compares what is said of its name.
fn remove_row(
    rt: &(impl Abort + AllocGlobal),
    dir: &mut Directory,
    row: &mut Row,
) -> Result<(), Fail>
    requires { IsTop (forest_of dir.old.nodes) dir.old.root.0 }
    ensures { OnOk result (IsTop (forest_of dir.new.nodes) dir.new.root.0) }
{
    let alloc = rt.alloc();
    let number = row.number;
    let found = dir.find(alloc, row.name.as_slice());
    assert!(rt; found.is_ok(), "{number}");
    assert_eq!(rt; dir.remove(alloc, row.name.as_slice()), found, "{number}");
    row.is_in = false;
    let none = Err(DirFault::NoEntry);
    assert_eq!(rt; dir.remove(alloc, row.name.as_slice()), none, "{number}");
    compare_row(rt, dir, row)
}

// Unloads the directory from time to time.
fn unload_at(dir: &mut Directory, step: usize)
    requires { IsTop (forest_of dir.old.nodes) dir.old.root.0 }
    ensures { IsTop (forest_of dir.new.nodes) dir.new.root.0 }
{
    if step % UNLOAD != 0 {
        return;
    }
    dir.unload();
}

// Looks at all names from time to time.
fn look_at(
    rt: &(impl Abort + AllocGlobal),
    dir: &mut Directory,
    rows: &[Row],
    step: usize,
) -> Result<(), Fail>
    requires { IsTop (forest_of dir.old.nodes) dir.old.root.0 }
    ensures { OnOk result (IsTop (forest_of dir.new.nodes) dir.new.root.0) }
{
    if step % LOOK != 0 {
        return Ok(());
    }
    compare_all(rt, dir, rows)
}

// Adds all rows in an order.
pub(super) fn fill(
    rt: &(impl Abort + AllocGlobal),
    dir: &mut Directory,
    rows: &mut Vec<Row>,
    order: Order,
) -> Result<(), Fail>
    requires { IsTop (forest_of dir.old.nodes) dir.old.root.0 }
    ensures { OnOk result (IsTop (forest_of dir.new.nodes) dir.new.root.0) }
{
    for step in 0..rows.len() {
        let place = place_at(order, step, rows);
        let Some(row) = rows.get_mut(place) else {
            return Err(Fail::new("no row"));
        };
        add_row(rt, dir, row)?;
        unload_at(dir, step);
        look_at(rt, dir, rows, step)?;
    }
    compare_all(rt, dir, rows)
}

// Takes all rows out in an order.
fn empty(
    rt: &(impl Abort + AllocGlobal),
    dir: &mut Directory,
    rows: &mut Vec<Row>,
    order: Order,
) -> Result<(), Fail>
    requires { IsTop (forest_of dir.old.nodes) dir.old.root.0 }
    ensures { OnOk result (IsTop (forest_of dir.new.nodes) dir.new.root.0) }
{
    for step in 0..rows.len() {
        let place = place_at(order, step, rows);
        let Some(row) = rows.get_mut(place) else {
            return Err(Fail::new("no row"));
        };
        remove_row(rt, dir, row)?;
        unload_at(dir, step);
        look_at(rt, dir, rows, step)?;
    }
    compare_all(rt, dir, rows)
}

// Gives the name of a row its block, where it has one.
fn name_row(alloc: Global, dir: &mut Directory, row: &Row) -> Result<(), NoMemory>
    requires { IsTop (forest_of dir.old.nodes) dir.old.root.0 }
    ensures { IsTop (forest_of dir.new.nodes) dir.new.root.0 }
{
    match row.block {
        Some(place) => dir.add_name(alloc, place, row.name.as_slice()),
        None => Ok(()),
    }
}

/// A directory without an entry, where the long names of the rows have their blocks.
pub(super) fn with_names(alloc: Global, rows: &[Row]) -> Result<Directory, Fail>
    ensures { IfOk result (λ d. IsTop (forest_of d.nodes) d.root.0) }
{
    let mut dir = Directory::new(alloc)?;
    for row in rows {
        name_row(alloc, &mut dir, row)?;
    }
    Ok(dir)
}

#[test]
fn names_come_and_go_in_any_order(rt: HostRuntime) -> Result<(), Fail> {
    let alloc = rt.alloc();
    for (come, go) in ORDERS {
        let mut rows = some_rows(alloc, NAMES)?;
        let mut dir = with_names(alloc, &rows)?;
        fill(&rt, &mut dir, &mut rows, come)?;
        empty(&rt, &mut dir, &mut rows, go)?;
    }
    Ok(())
}
