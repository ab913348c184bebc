//! Each call on a directory, from the super-root down.
ghost use Rattle.std.specs.Prelude.{◌≤◌, IsTrue, None, length};
ghost use Rattle.h2_ref.specs.Ref.{IsValid};
ghost use Rattle.h2_set.specs.Forest.{Reaches};
ghost use Rattle.h2_memory_sets.specs.Seen.{forest_of};
ghost use Rattle.h2_dirkey.specs.Key.{IsNameUnder};
ghost use Rattle.h2_dir.specs.Changing.{HasBlockIfLong, entry_ref};
ghost use Rattle.h2_node_rows.specs.VolumeUnderTest.{IsTop, holds_of};
ghost use Rattle.h2_dir_rows.specs.DirectoryUnderTest.{IsOpened};

use super::opening::{has_room, open_directory, open_pfs};
use h2_dir::{DirFault, add_at, entry_ref, find, list, remove_at, spot, walk};
use h2_dirkey::check_name;
use h2_memory_sets::MemorySets;
use h2_num::{Block, Name, Names, NoMemory};
use h2_ref::{Check, Dirent, Trouble};
use h2_set::{NodeId, Sets};
use std::alloc::Global;

/// What a call answers where a test went wrong: no test expects it.
const UNEXPECTED: DirFault = DirFault::Trouble(Trouble::NoMemory);

/// The most bytes of a name that stands in its entry.
const SHORT_NAME_BYTES: usize = 64;

/// How many spare nodes an addition is given.
const SPARE: u32 = 4;

/// An entry that is to be added.
#[derive(Clone, Copy)]
pub(super) struct NewEntry<'a> {
    pub name: &'a [u8],
    /// The place of the name's block.
    pub block: Option<u64>,
    pub number: u64,
    pub target: u8,
}

// The block of a name of more than 64 bytes.
fn block_at(place: Option<u64>) -> Option<(Block, Check)> {
    let place = place?;
    Some((Block { place, radix: 10 }, Check::Xx(0)))
}

/// The key and the entry that has the name.
pub(super) fn find_in(
    alloc: Global,
    nodes: &mut MemorySets,
    root: NodeId,
    name: &[u8],
) -> Result<(u64, Dirent), DirFault>
    requires { IsTop (forest_of nodes.old) root.0 }
    ensures { IsTop (forest_of nodes.new) root.0 }
{
    let dir = open_directory(alloc, nodes, root)?;
    find(alloc, nodes, dir, name)
}

/// The key that an entry with the name would get.
pub(super) fn spot_in(
    alloc: Global,
    nodes: &mut MemorySets,
    root: NodeId,
    name: &[u8],
) -> Result<u64, DirFault>
    requires { IsTop (forest_of nodes.old) root.0 }
    ensures { IsTop (forest_of nodes.new) root.0 }
{
    let Ok(()) = check_name(name) else {
        return Err(UNEXPECTED);
    };
    let dir = open_directory(alloc, nodes, root)?;
    spot(alloc, nodes, dir, name)
}

// Whether a name has a block exactly where it has more than 64 bytes.
fn has_block_if_long(name: &[u8], block: Option<(Block, Check)>) -> bool
    ensures { IsTrue result → HasBlockIfLong name.now block }
{
    match block {
        None => name.len() <= SHORT_NAME_BYTES,
        Some(_) => name.len() > SHORT_NAME_BYTES,
    }
}

// Whether the reference of an entry is valid.
fn is_valid(
    epoch: u64,
    key: u64,
    name: &[u8],
    block: Option<(Block, Check)>,
    number: u64,
    target: u8,
) -> bool
    requires few { length name.now ≤ 255 }
    requires block { HasBlockIfLong name.now block }
    ensures { IsTrue result → IsValid (entry_ref epoch key name.now block number target) }
{
    entry_ref(epoch, key, name, block, number, target).valid()
}

// Adds the entry under the key, where there is room for it.
fn put_at(
    alloc: Global,
    nodes: &mut MemorySets,
    root: NodeId,
    dir: NodeId,
    key: u64,
    entry: NewEntry,
) -> Result<u64, DirFault>
    requires top { IsTop (forest_of nodes.old) root.0 }
    requires opened { IsOpened (forest_of nodes.old) (holds_of nodes.old) root.0 dir.0 }
    requires few { length entry.name.now ≤ 255 }
    requires under { IsNameUnder key entry.name.now }
    requires free { Reaches (forest_of nodes.old) key dir.0 None }
    ensures { IsTop (forest_of nodes.new) root.0 }
{
    if !has_room(nodes, dir) {
        return Err(UNEXPECTED);
    }
    if nodes.spare() < 1 {
        return Err(UNEXPECTED);
    }
    if nodes.room() < 63 {
        return Err(UNEXPECTED);
    }
    let block = block_at(entry.block);
    if !has_block_if_long(entry.name, block) {
        return Err(UNEXPECTED);
    }
    if !is_valid(
        nodes.epoch(),
        key,
        entry.name,
        block,
        entry.number,
        entry.target,
    ) {
        return Err(UNEXPECTED);
    }
    add_at(
        alloc,
        nodes,
        dir,
        key,
        entry.name,
        block,
        entry.number,
        entry.target,
    );
    Ok(key)
}

// Makes nodes spare.
fn make_ready(alloc: Global, nodes: &mut MemorySets, root: NodeId) -> Result<(), DirFault>
    requires { IsTop (forest_of nodes.old) root.0 }
    ensures { IsTop (forest_of nodes.new) root.0 }
{
    let _ = root;
    match nodes.ready(alloc, SPARE) {
        Ok(()) => Ok(()),
        Err(NoMemory) => Err(UNEXPECTED),
    }
}

/// Adds the entry, and answers its key.
pub(super) fn add_in(
    alloc: Global,
    nodes: &mut MemorySets,
    root: NodeId,
    entry: NewEntry,
) -> Result<u64, DirFault>
    requires { IsTop (forest_of nodes.old) root.0 }
    ensures { IsTop (forest_of nodes.new) root.0 }
{
    let Ok(()) = check_name(entry.name) else {
        return Err(UNEXPECTED);
    };
    make_ready(alloc, nodes, root)?;
    let dir = open_directory(alloc, nodes, root)?;
    let key = spot(alloc, nodes, dir, entry.name)?;
    put_at(alloc, nodes, root, dir, key, entry)
}

/// Takes the entry with the name out, and answers its key and what it said.
pub(super) fn remove_in(
    alloc: Global,
    nodes: &mut MemorySets,
    root: NodeId,
    name: &[u8],
) -> Result<(u64, Dirent), DirFault>
    requires { IsTop (forest_of nodes.old) root.0 }
    ensures { IsTop (forest_of nodes.new) root.0 }
{
    let dir = open_directory(alloc, nodes, root)?;
    let (key, _entry) = find(alloc, nodes, dir, name)?;
    if nodes.room() < 62 {
        return Err(UNEXPECTED);
    }
    let taken = remove_at(alloc, nodes, dir, key);
    Ok((key, taken))
}

/// All entries in byte order of their names.
pub(super) fn list_in(
    alloc: Global,
    nodes: &mut MemorySets,
    root: NodeId,
) -> Result<Vec<(Name, u64)>, DirFault>
    requires { IsTop (forest_of nodes.old) root.0 }
    ensures { IsTop (forest_of nodes.new) root.0 }
{
    let dir = open_directory(alloc, nodes, root)?;
    list(alloc, nodes, dir)
}

/// The number of the inode that a path leads to.
pub(super) fn walk_in(
    alloc: Global,
    nodes: &mut MemorySets,
    root: NodeId,
    names: &Names,
) -> Result<u64, DirFault>
    requires { IsTop (forest_of nodes.old) root.0 }
    ensures { IsTop (forest_of nodes.new) root.0 }
{
    let pfs = open_pfs(alloc, nodes, root)?;
    walk(alloc, nodes, pfs, names)
}
