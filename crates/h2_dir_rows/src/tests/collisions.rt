//! Names whose keys have the same upper bits, found by search over XXH64 with seed 0.
ghost use Rattle.std.specs.Prelude.{OnOk};
ghost use Rattle.h2_memory_sets.specs.Seen.{forest_of};
ghost use Rattle.h2_node_rows.specs.VolumeUnderTest.{IsTop};

use super::changing::NewEntry;
use super::directory::Directory;
use h2_dir::DirFault;
use std::alloc::Global;
use std::process::Abort;
use std::test::Fail;

/// Two names, and the least key of both.
#[derive(Clone, Copy)]
struct Pair {
    first: &'static [u8],
    second: &'static [u8],
    key: u64,
}

const PAIRS: [Pair; 4] = [
    Pair {
        first: b"n00a433a",
        second: b"n034978a",
        key: 0xb90d_f677_48cf_0000,
    },
    Pair {
        first: b"n2ebff15",
        second: b"n351a0a8",
        key: 0xc324_4bed_b128_0000,
    },
    Pair {
        first: b"n0ce02c1",
        second: b"n36db26d",
        key: 0xc3b5_5c6f_31d2_0000,
    },
    Pair {
        first: b"n0759488",
        second: b"n1d7aa14",
        key: 0xe221_3762_7997_0000,
    },
];

/// The numbers that the entries of the two names have.
const FIRST: u64 = 11;

const SECOND: u64 = 12;

// Adds a name, and answers its key.
fn add(
    dir: &mut Directory,
    alloc: Global,
    name: &'static [u8],
    number: u64,
) -> Result<u64, DirFault>
    requires { IsTop (forest_of dir.old.nodes) dir.old.root.0 }
    ensures { IsTop (forest_of dir.new.nodes) dir.new.root.0 }
{
    let entry = NewEntry {
        name,
        block: None,
        number,
        target: 2,
    };
    dir.add(alloc, entry)
}

// The key and the number of a name.
fn number_of(dir: &mut Directory, alloc: Global, name: &[u8]) -> Result<(u64, u64), DirFault>
    requires { IsTop (forest_of dir.old.nodes) dir.old.root.0 }
    ensures { IsTop (forest_of dir.new.nodes) dir.new.root.0 }
{
    let (key, entry) = dir.find(alloc, name)?;
    Ok((key, entry.number))
}

// Takes a name out, and answers its key and its number.
fn remove(dir: &mut Directory, alloc: Global, name: &[u8]) -> Result<(u64, u64), DirFault>
    requires { IsTop (forest_of dir.old.nodes) dir.old.root.0 }
    ensures { IsTop (forest_of dir.new.nodes) dir.new.root.0 }
{
    let (key, entry) = dir.remove(alloc, name)?;
    Ok((key, entry.number))
}

// Both names come, and the first goes and comes again.
fn take_turns(rt: &(impl Abort + AllocGlobal), dir: &mut Directory, pair: &Pair) -> Result<(), Fail>
    requires { IsTop (forest_of dir.old.nodes) dir.old.root.0 }
    ensures { OnOk result (IsTop (forest_of dir.new.nodes) dir.new.root.0) }
{
    let alloc = rt.alloc();
    let (first, second, key) = (pair.first, pair.second, pair.key);
    let none = Err(DirFault::NoEntry);
    let Some(next) = key.checked_add(1) else {
        return Err(Fail::new("no next key"));
    };
    assert_eq!(rt; add(dir, alloc, first, FIRST), Ok(key));
    assert_eq!(rt; number_of(dir, alloc, second), none);
    assert_eq!(rt; dir.spot(alloc, second), Ok(next));
    assert_eq!(rt; add(dir, alloc, second, SECOND), Ok(next));
    assert_eq!(rt; number_of(dir, alloc, first), Ok((key, FIRST)));
    assert_eq!(rt; number_of(dir, alloc, second), Ok((next, SECOND)));
    assert_eq!(rt; dir.spot(alloc, first), Err(DirFault::Exists));
    assert_eq!(rt; dir.spot(alloc, second), Err(DirFault::Exists));

    assert_eq!(rt; remove(dir, alloc, first), Ok((key, FIRST)));
    dir.unload();
    assert_eq!(rt; number_of(dir, alloc, first), none);
    assert_eq!(rt; number_of(dir, alloc, second), Ok((next, SECOND)));

    // The key that became free is the least one again, and another number is told.
    assert_eq!(rt; add(dir, alloc, first, SECOND), Ok(key));
    assert_eq!(rt; number_of(dir, alloc, first), Ok((key, SECOND)));
    assert_eq!(rt; remove(dir, alloc, second), Ok((next, SECOND)));
    assert_eq!(rt; number_of(dir, alloc, second), none);
    assert_eq!(rt; number_of(dir, alloc, first), Ok((key, SECOND)));
    Ok(())
}

#[test]
fn colliding_names_are_told_apart(rt: HostRuntime) -> Result<(), Fail> {
    let alloc = rt.alloc();
    let mut dir = Directory::new(alloc)?;
    for pair in &PAIRS {
        take_turns(&rt, &mut dir, pair)?;
    }

    // The first name of each pair is in.
    let Ok(listed) = dir.list(alloc) else {
        return Err(Fail::new("no list"));
    };
    assert_eq!(rt; listed.len(), PAIRS.len());
    Ok(())
}
