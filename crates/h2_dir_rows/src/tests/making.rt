//! A PFS in memory whose root directory has no entry.
ghost use Rattle.std.specs.Prelude.{◌≡◌, IfOk, IfSome, OnOk};
ghost use Rattle.h2_memory_sets.specs.Seen.{forest_of};
ghost use Rattle.h2_tree.specs.Changes.{Takes};
ghost use Rattle.h2_inode.specs.Nodes.{HasInode, IsPlantable};
ghost use Rattle.h2_node_rows.specs.VolumeUnderTest.{IsTop, IsLeaf, IsEmptyDirectory, holds_of};
ghost use Rattle.h2_dir_rows.specs.DirectoryUnderTest.{IsRootOfTree, IsNewPfs};

use h2_inode::{Body, Inode, InodeKind, Nodes, PfsName};
use h2_memory_sets::MemorySets;
use h2_node_rows::super_root;
use h2_ref::{Check, Kind, Ref};
use h2_set::{NodeId, Set};
use h2_tree::{insert, tree_law};
use std::alloc::Global;
use std::test::Fail;

/// Where the PFS's inode and that of its root directory lie: places of blocks of 1 KiB.
pub(super) const PFS_PLACE: u64 = 1 << 23;

pub(super) const DIRECTORY_PLACE: u64 = (1 << 23) + 1024;

/// The checkpoint that made them.
const MADE: u64 = 5;

// The leaf of inode 1, whose block lies there.
fn leaf_at(place: u64) -> Option<Ref>
    ensures { IfSome result IsLeaf }
{
    let leaf = Ref {
        kind: Kind::Inode,
        key: 1,
        keybits: 0,
        place,
        radix: 10,
        id: MADE,
        check: Check::Xx(0),
        dirent: None,
    };
    if !leaf.valid() {
        return None;
    }
    Some(leaf)
}

// PFS 1, whose tree has no leaf.
fn new_pfs() -> Option<Inode>
    ensures { IfSome result IsNewPfs }
{
    let name = PfsName::from_slice(b"home")?;
    Some(Inode {
        kind: InodeKind::Pfs,
        number: 1,
        size: 0,
        links: 1,
        next: 2,
        name,
        body: Body::Refs(Set::new(4)),
    })
}

// Its root directory, whose tree has no leaf.
fn new_directory() -> Inode
    ensures { IsEmptyDirectory result }
{
    Inode {
        kind: InodeKind::Directory,
        number: 1,
        size: 0,
        links: 1,
        next: 0,
        name: PfsName::empty(),
        body: Body::Refs(Set::new(4)),
    }
}

// Adds inode 1 to the tree of a root that has none.
fn add_inode(
    alloc: Global,
    nodes: &mut MemorySets,
    root: NodeId,
    at: NodeId,
    leaf: Ref,
    inode: Inode,
) -> Result<NodeId, Fail>
    requires top { IsTop (forest_of nodes.old) root.0 }
    requires tree { IsRootOfTree (forest_of nodes.old) at.0 }
    requires takes { Takes (forest_of nodes.old) at.0 leaf }
    requires leaf { IsLeaf leaf }
    requires number { inode.number ≡ 1 }
    requires plantable { IsPlantable inode }
    ensures top { OnOk result (IsTop (forest_of nodes.new) root.0) }
    ensures inode { IfOk result (λ c. HasInode (forest_of nodes.new) (holds_of nodes.new) c.0 inode) }
{
    if nodes.room() < 63 {
        return Err(Fail::new("no room"));
    }
    tree_law();
    let None = insert(alloc, nodes, at, leaf)? else {
        return Err(Fail::new("a leaf in an empty tree"));
    };
    if nodes.spare() < 1 {
        return Err(Fail::new("no spare node"));
    }
    Ok(nodes.plant(at, &leaf, inode))
}

/// The forest, and its super-root.
pub(super) fn made(alloc: Global) -> Result<(MemorySets, NodeId), Fail>
    ensures { IfOk result (λ p. let c = p.1 in IsTop (forest_of p.0) c.0) }
{
    let (mut nodes, root) = super_root(alloc)?;
    let Some(leaf) = leaf_at(PFS_PLACE) else {
        return Err(Fail::new("no leaf of the PFS"));
    };
    let Some(inode) = new_pfs() else {
        return Err(Fail::new("no PFS"));
    };
    let pfs = add_inode(alloc, &mut nodes, root, root, leaf, inode)?;
    let Some(leaf) = leaf_at(DIRECTORY_PLACE) else {
        return Err(Fail::new("no leaf of the directory"));
    };
    add_inode(alloc, &mut nodes, root, pfs, leaf, new_directory())?;
    Ok((nodes, root))
}
