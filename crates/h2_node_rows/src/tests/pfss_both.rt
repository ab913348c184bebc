ghost use Rattle.h2_memory_sets.specs.Seen.{forest_of};
ghost use Rattle.h2_node_rows.specs.VolumeUnderTest.{IsTop};

use super::pfss::Pfss;
use super::pfss_plain::{PlainPfs, PlainPfss};
use crate::{BLOCK_PLACE, INODE_PLACE};
use h2_pfs::PfsFault;
use h2_ref::{Trouble, Why};
use std::process::Abort;
use std::test::Fail;

/// A call on the list of PFSs.
#[derive(Clone, Copy, Debug, PartialEq, Eq)]
pub(super) enum Call {
    Find(PlainPfs),
    Add(PlainPfs),
    /// Removes one, while so many handles are open in it.
    Remove(PlainPfs, u32),
    Names,
}

/// How a load fails.
#[derive(Clone, Copy, Debug, PartialEq, Eq)]
pub(super) enum Failure {
    Disk,
    Block,
}

// Finds a PFS in both.
fn find_both(
    rt: &(impl Abort + AllocGlobal),
    pfss: &mut Pfss,
    plain: &PlainPfss,
    pfs: PlainPfs,
) -> Result<Option<Trouble>, Fail>
    requires { IsTop (forest_of pfss.old.nodes) pfss.old.root.0 }
    ensures { IsTop (forest_of pfss.new.nodes) pfss.new.root.0 }
{
    match pfss.find(rt.alloc(), &pfs.name) {
        Err(PfsFault::Trouble(trouble)) => Ok(Some(trouble)),
        found => {
            assert_eq!(rt; found, plain.find(&pfs.name), "{pfs:?}");
            Ok(None)
        }
    }
}

// Adds a PFS to both.
fn add_both(
    rt: &(impl Abort + AllocGlobal),
    pfss: &mut Pfss,
    plain: &mut PlainPfss,
    pfs: PlainPfs,
) -> Result<Option<Trouble>, Fail>
    requires { IsTop (forest_of pfss.old.nodes) pfss.old.root.0 }
    ensures { IsTop (forest_of pfss.new.nodes) pfss.new.root.0 }
{
    match pfss.add(rt.alloc(), pfs.id, &pfs.name)? {
        Err(PfsFault::Trouble(trouble)) => Ok(Some(trouble)),
        added => {
            assert_eq!(rt; added, plain.add(pfs)?, "{pfs:?}");
            Ok(None)
        }
    }
}

// Removes a PFS from both.
fn remove_both(
    rt: &(impl Abort + AllocGlobal),
    pfss: &mut Pfss,
    plain: &mut PlainPfss,
    pfs: PlainPfs,
    handles: u32,
) -> Result<Option<Trouble>, Fail>
    requires { IsTop (forest_of pfss.old.nodes) pfss.old.root.0 }
    ensures { IsTop (forest_of pfss.new.nodes) pfss.new.root.0 }
{
    match pfss.remove(rt.alloc(), &pfs.name, handles) {
        Err(PfsFault::Trouble(trouble)) => Ok(Some(trouble)),
        removed => {
            let want = plain.remove(&pfs.name, handles);
            assert_eq!(rt; removed, want, "{pfs:?}, {handles} handles");
            Ok(None)
        }
    }
}

// The names of both, one beside the other.
fn names_both(
    rt: &(impl Abort + AllocGlobal),
    pfss: &mut Pfss,
    plain: &PlainPfss,
) -> Result<Option<Trouble>, Fail>
    requires { IsTop (forest_of pfss.old.nodes) pfss.old.root.0 }
    ensures { IsTop (forest_of pfss.new.nodes) pfss.new.root.0 }
{
    let names = match pfss.names(rt.alloc()) {
        Ok(names) => names,
        Err(trouble) => return Ok(Some(trouble)),
    };
    let names = names.items();
    assert_eq!(rt; names.len(), plain.pfss.len());
    for (name, pfs) in names.iter().zip(&plain.pfss) {
        assert_eq!(rt; name.as_slice(), pfs.name.as_slice());
    }
    Ok(None)
}

/// Calls both, and compares what they say. The trouble of the call, where it was in one; the plain list is as before then.
pub(super) fn call_both(
    rt: &(impl Abort + AllocGlobal),
    pfss: &mut Pfss,
    plain: &mut PlainPfss,
    call: Call,
) -> Result<Option<Trouble>, Fail>
    requires { IsTop (forest_of pfss.old.nodes) pfss.old.root.0 }
    ensures { IsTop (forest_of pfss.new.nodes) pfss.new.root.0 }
{
    match call {
        Call::Find(pfs) => find_both(rt, pfss, plain, pfs),
        Call::Add(pfs) => add_both(rt, pfss, plain, pfs),
        Call::Remove(pfs, handles) => remove_both(rt, pfss, plain, pfs, handles),
        Call::Names => names_both(rt, pfss, plain),
    }
}

// Lets a load from now on fail; none where it is 0.
fn fail(pfss: &mut Pfss, failure: Failure, which: u64)
    requires { IsTop (forest_of pfss.old.nodes) pfss.old.root.0 }
    ensures { IsTop (forest_of pfss.new.nodes) pfss.new.root.0 }
{
    match failure {
        Failure::Disk => pfss.fail_load(which),
        Failure::Block => pfss.spoil_load(which),
    }
}

// Whether a load that fails so is in this trouble: that of a block of the super-root's tree, or of an inode.
fn is_caused(trouble: Trouble, failure: Failure) -> bool {
    let of_block = Trouble::Bad {
        place: BLOCK_PLACE,
        why: Why::Shape,
    };
    let of_inode = Trouble::Bad {
        place: INODE_PLACE,
        why: Why::Inode,
    };
    match failure {
        Failure::Disk => trouble == Trouble::Failed,
        Failure::Block => trouble == of_block || trouble == of_inode,
    }
}

/// Calls both after all was unloaded. Each load of the call fails first in its turn, and then both are as before. How
/// many loads it took.
pub(super) fn call_failing(
    rt: &(impl Abort + AllocGlobal),
    pfss: &mut Pfss,
    plain: &mut PlainPfss,
    call: Call,
    failure: Failure,
) -> Result<u64, Fail>
    requires { IsTop (forest_of pfss.old.nodes) pfss.old.root.0 }
    ensures { IsTop (forest_of pfss.new.nodes) pfss.new.root.0 }
{
    for n in 0..200u64 {
        pfss.unload();
        fail(pfss, failure, n + 1);
        let trouble = call_both(rt, pfss, plain, call)?;
        fail(pfss, failure, 0);
        assert_eq!(rt; call_both(rt, pfss, plain, Call::Names)?, None);
        match trouble {
            None => return Ok(n),
            Some(trouble) => assert!(rt; is_caused(trouble, failure), "load {n}, {call:?}"),
        }
    }
    Err(Fail::new("more loads than there are PFSs and blocks"))
}
