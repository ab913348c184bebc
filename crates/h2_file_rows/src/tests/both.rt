ghost use Rattle.h2_memory_sets.specs.Seen.{forest_of};
ghost use Rattle.h2_node_rows.specs.VolumeUnderTest.{IsTop};

use super::blocks::{Run, are_blocks, cut_block};
use super::files::{Files, Refused};
use super::plain::PlainFile;
use h2_file::BLOCK_BYTES;
use h2_node_rows::{BLOCK_PLACE, INODE_PLACE};
use h2_ref::{Ref, Trouble, Why};
use std::process::Abort;
use std::test::Fail;

/// The number of the file.
pub(super) const NUMBER: u64 = 7;

/// The most bytes of a file that lies in its inode. One that was cut to so few isn't loaded again while its body is
/// references.
const EMBEDDED_BYTES: u64 = 512;

/// A change of a file.
#[derive(Clone, Copy, Debug, PartialEq, Eq)]
pub(super) enum Change {
    /// Puts blocks in. The file then ends in the last one at least.
    Link(Run),
    /// Puts blocks in, and block 0 before them.
    LinkBehindZero(Run),
    /// Cuts the file to a size.
    Cut(u64),
    /// Cuts it, with another version of the block in which the cut ends.
    CutWithin(u64, u64),
}

/// How a load fails.
#[derive(Clone, Copy, Debug, PartialEq, Eq)]
pub(super) enum Failure {
    Disk,
    Block,
}

// Links blocks in both.
fn link_both(
    rt: &(impl Abort + AllocGlobal),
    files: &mut Files,
    plain: &mut PlainFile,
    refs: &[Ref],
    end: u64,
) -> Result<Result<(), Refused>, Fail>
    requires { IsTop (forest_of files.old.nodes) files.old.root.0 }
    ensures { IsTop (forest_of files.new.nodes) files.new.root.0 }
{
    if !are_blocks(refs) {
        return Err(Fail::new("no blocks of a file"));
    }
    let size = plain.size.max(end.saturating_sub(5));
    match files.link(rt.alloc(), NUMBER, refs, size) {
        Ok(()) => plain.link(refs, size)?,
        Err(refused) => return Ok(Err(refused)),
    }
    Ok(Ok(()))
}

// Cuts both.
fn cut_both(
    rt: &(impl Abort + AllocGlobal),
    files: &mut Files,
    plain: &mut PlainFile,
    size: u64,
) -> Result<Result<(), Refused>, Fail>
    requires { IsTop (forest_of files.old.nodes) files.old.root.0 }
    ensures { IsTop (forest_of files.new.nodes) files.new.root.0 }
{
    match files.cut(rt.alloc(), NUMBER, size, None) {
        Ok(()) => plain.cut(size, None)?,
        Err(refused) => return Ok(Err(refused)),
    }
    Ok(Ok(()))
}

// Cuts both within a block.
fn cut_both_within(
    rt: &(impl Abort + AllocGlobal),
    files: &mut Files,
    plain: &mut PlainFile,
    size: u64,
    version: u64,
) -> Result<Result<(), Refused>, Fail>
    requires { IsTop (forest_of files.old.nodes) files.old.root.0 }
    ensures { IsTop (forest_of files.new.nodes) files.new.root.0 }
{
    let last = cut_block(size, version);
    assert!(rt; last.is_some(), "a cut to {size} at a block's edge");
    match files.cut(rt.alloc(), NUMBER, size, last) {
        Ok(()) => plain.cut(size, last)?,
        Err(refused) => return Ok(Err(refused)),
    }
    Ok(Ok(()))
}

/// Makes a change in both, where it succeeds.
pub(super) fn change_both(
    rt: &(impl Abort + AllocGlobal),
    files: &mut Files,
    plain: &mut PlainFile,
    change: Change,
) -> Result<Result<(), Refused>, Fail>
    requires { IsTop (forest_of files.old.nodes) files.old.root.0 }
    ensures { IsTop (forest_of files.new.nodes) files.new.root.0 }
{
    match change {
        Change::Link(run) => {
            let refs = run.refs(rt.alloc())?;
            link_both(rt, files, plain, &refs, run.end())
        }
        Change::LinkBehindZero(run) => {
            let refs = run.refs_behind_zero(rt.alloc())?;
            link_both(rt, files, plain, &refs, run.end())
        }
        Change::Cut(size) => cut_both(rt, files, plain, size),
        Change::CutWithin(size, version) => cut_both_within(rt, files, plain, size, version),
    }
}

// What both say of a byte.
fn compare_at(
    rt: &(impl Abort + AllocGlobal),
    files: &mut Files,
    plain: &PlainFile,
    start: u64,
) -> Result<(), Fail>
    requires { IsTop (forest_of files.old.nodes) files.old.root.0 }
    ensures { IsTop (forest_of files.new.nodes) files.new.root.0 }
{
    let found = files.read(rt.alloc(), NUMBER, start);
    assert_eq!(rt; found, Ok(plain.find(start)), "byte {start}");
    Ok(())
}

// What both say of a block, and of the hole behind it, where there is one.
fn compare_block(
    rt: &(impl Abort + AllocGlobal),
    files: &mut Files,
    plain: &PlainFile,
    r: Ref,
) -> Result<(), Fail>
    requires { IsTop (forest_of files.old.nodes) files.old.root.0 }
    ensures { IsTop (forest_of files.new.nodes) files.new.root.0 }
{
    let end = r.key.saturating_add(BLOCK_BYTES);
    if plain.find(end).is_none() {
        compare_at(rt, files, plain, r.key)?;
        compare_at(rt, files, plain, end)?;
    }
    compare_at(rt, files, plain, r.key.saturating_add(BLOCK_BYTES - 1))
}

/// What both say of the size, of each block, of what is next to it, and of the blocks with these numbers.
pub(super) fn compare(
    rt: &(impl Abort + AllocGlobal),
    files: &mut Files,
    plain: &PlainFile,
    blocks: &[u64],
) -> Result<(), Fail>
    requires { IsTop (forest_of files.old.nodes) files.old.root.0 }
    ensures { IsTop (forest_of files.new.nodes) files.new.root.0 }
{
    assert_eq!(rt; files.size(rt.alloc(), NUMBER), Ok(plain.size));
    for r in &plain.blocks {
        compare_block(rt, files, plain, *r)?;
    }
    for block in blocks {
        compare_at(rt, files, plain, block.saturating_mul(BLOCK_BYTES))?;
    }
    Ok(())
}

/// Unloads the file and its blocks, where it can be loaded again.
pub(super) fn unload(files: &mut Files, plain: &PlainFile)
    requires { IsTop (forest_of files.old.nodes) files.old.root.0 }
    ensures { IsTop (forest_of files.new.nodes) files.new.root.0 }
{
    if plain.size > EMBEDDED_BYTES {
        files.unload();
    }
}

// Lets a load from now on fail; none where it is 0.
fn fail(files: &mut Files, failure: Failure, which: u64)
    requires { IsTop (forest_of files.old.nodes) files.old.root.0 }
    ensures { IsTop (forest_of files.new.nodes) files.new.root.0 }
{
    match failure {
        Failure::Disk => files.fail_load(which),
        Failure::Block => files.spoil_load(which),
    }
}

// What is said of a load that fails: the first is that of the inode, and the others are those of blocks.
fn refusal(failure: Failure, which: u64) -> Refused {
    match failure {
        Failure::Disk => Refused::Trouble(Trouble::Failed),
        Failure::Block if which == 1 => Refused::Trouble(Trouble::Bad {
            place: INODE_PLACE,
            why: Why::Inode,
        }),
        Failure::Block => Refused::Trouble(Trouble::Bad {
            place: BLOCK_PLACE,
            why: Why::Shape,
        }),
    }
}

/// Makes a change in both after all was unloaded. Each of its loads fails first in its turn, and then both are as
/// before. How many loads it took.
pub(super) fn change_failing(
    rt: &(impl Abort + AllocGlobal),
    files: &mut Files,
    plain: &mut PlainFile,
    change: Change,
    failure: Failure,
    blocks: &[u64],
) -> Result<u64, Fail>
    requires { IsTop (forest_of files.old.nodes) files.old.root.0 }
    ensures { IsTop (forest_of files.new.nodes) files.new.root.0 }
{
    for n in 0..100u64 {
        unload(files, plain);
        fail(files, failure, n + 1);
        let done = change_both(rt, files, plain, change)?;
        fail(files, failure, 0);
        compare(rt, files, plain, blocks)?;
        match done {
            Ok(()) => return Ok(n),
            Err(refused) => assert_eq!(rt; refused, refusal(failure, n + 1), "{change:?}"),
        }
    }
    Err(Fail::new("more loads than the file has blocks"))
}
