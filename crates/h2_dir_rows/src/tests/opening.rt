//! The root directory of a PFS in memory, loaded where it wasn't.
ghost use Rattle.std.specs.Prelude.{◌≡◌, ◌<◌, IsTrue, IfOk, Some};
ghost use Rattle.h2_ref.specs.declared.reference.Kind.TheVariants.{Inode as Inode_kind};
ghost use Rattle.h2_set.specs.RefSet.{RefSet};
ghost use Rattle.h2_inode.specs.declared.inode.Body.TheVariants.{Refs};
ghost use Rattle.h2_inode.specs.declared.kind.InodeKind.TheVariants.{Directory};
ghost use Rattle.h2_inode.specs.declared.inode.Inode.{Inode};
ghost use Rattle.h2_inode.specs.Nodes.{HasInode, IsInodeLeaf};
ghost use Rattle.h2_memory_sets.specs.Seen.{forest_of};
ghost use Rattle.h2_dir.specs.Changing.{HasRoom, IsDirectoryRoot};
ghost use Rattle.h2_dir.specs.Walking.{IsPfsRoot};
ghost use Rattle.h2_node_rows.specs.VolumeUnderTest.{IsTop, holds_of};
ghost use Rattle.h2_dir_rows.specs.DirectoryUnderTest.{IsRootOfTree, IsOpened};

use h2_inode::{Body, Inode, InodeKind, Nodes};
use h2_memory_sets::MemorySets;
use h2_ref::{Kind, Ref, Trouble};
use h2_set::NodeId;
use h2_tree::lookup;
use std::alloc::Global;

/// The id of the PFS, and the number of its root directory.
pub(super) const NUMBER: u64 = 1;

/// A directory has room for an entry more where it has fewer.
const ENTRIES: u64 = 4096;

// A leaf that names inode 1. What is none counts as want of memory, which no test expects.
fn numbered(found: Option<Ref>) -> Result<Ref, Trouble>
    ensures found { IfOk result (λ r. found ≡ Some r) }
    ensures kind { IfOk result (λ r. r.kind ≡ Inode_kind) }
    ensures key { IfOk result (λ r. r.key ≡ 1) }
{
    let Some(leaf) = found else {
        return Err(Trouble::NoMemory);
    };
    if leaf.key != NUMBER {
        return Err(Trouble::NoMemory);
    }
    match leaf.kind {
        Kind::Inode => Ok(leaf),
        _ => Err(Trouble::NoMemory),
    }
}

// The leaf of inode 1 in the tree of a root.
fn leaf_in(alloc: Global, nodes: &mut MemorySets, root: NodeId, at: NodeId) -> Result<Ref, Trouble>
    requires top { IsTop (forest_of nodes.old) root.0 }
    requires tree { IsRootOfTree (forest_of nodes.old) at.0 }
    ensures top { IsTop (forest_of nodes.new) root.0 }
    ensures leaf { IfOk result (IsInodeLeaf (forest_of nodes.new) at.0) }
    ensures key { IfOk result (λ r. r.key ≡ 1) }
{
    let found = lookup(alloc, nodes, at, NUMBER)?;
    let leaf = numbered(found)?;
    Ok(leaf)
}

// The root, where it is that of a PFS's inode.
fn as_pfs(nodes: &MemorySets, at: NodeId) -> Result<NodeId, Trouble>
    requires { (i : Inode) × HasInode (forest_of nodes.now) (holds_of nodes.now) at.0 i }
    ensures { IfOk result (λ c. IsPfsRoot (forest_of nodes.now) (holds_of nodes.now) c.0) }
{
    match nodes.inode(at).kind {
        InodeKind::Pfs => Ok(at),
        _ => Err(Trouble::NoMemory),
    }
}

// The root, where it is that of a directory's inode.
fn as_directory(nodes: &MemorySets, at: NodeId) -> Result<NodeId, Trouble>
    requires { (i : Inode) × HasInode (forest_of nodes.now) (holds_of nodes.now) at.0 i }
    ensures directory { IfOk result (λ c. IsDirectoryRoot (forest_of nodes.now) (holds_of nodes.now) c.0) }
    ensures same { IfOk result (λ c. c.0 ≡ at.0) }
{
    match nodes.inode(at).kind {
        InodeKind::Directory => Ok(at),
        _ => Err(Trouble::NoMemory),
    }
}

// Whether a body is references.
fn has_refs(body: &Body) -> bool
    ensures { IsTrue result → (s : RefSet) × (body.now ≡ Refs s) }
{
    match body {
        Body::Refs(_) => true,
        Body::Bytes(_) => false,
    }
}

// Whether an inode is that of a directory with references and with room for an entry more.
fn has_place(inode: &Inode) -> bool
    ensures kind { IsTrue result → inode.now.kind ≡ Directory }
    ensures refs { IsTrue result → (s : RefSet) × (inode.now.body ≡ Refs s) }
    ensures few { IsTrue result → inode.now.size < 4096 }
{
    if inode.size >= ENTRIES {
        return false;
    }
    match inode.kind {
        InodeKind::Directory => has_refs(&inode.body),
        _ => false,
    }
}

/// Whether a root is that of the inode of such a directory.
pub(super) fn has_room(nodes: &MemorySets, at: NodeId) -> bool
    requires { (i : Inode) × HasInode (forest_of nodes.now) (holds_of nodes.now) at.0 i }
    ensures { IsTrue result → HasRoom (forest_of nodes.now) (holds_of nodes.now) at.0 }
{
    has_place(nodes.inode(at))
}

/// The root of the PFS's inode.
pub(super) fn open_pfs(
    alloc: Global,
    nodes: &mut MemorySets,
    root: NodeId,
) -> Result<NodeId, Trouble>
    requires top { IsTop (forest_of nodes.old) root.0 }
    ensures top { IsTop (forest_of nodes.new) root.0 }
    ensures pfs { IfOk result (λ c. IsPfsRoot (forest_of nodes.new) (holds_of nodes.new) c.0) }
{
    let leaf = leaf_in(alloc, nodes, root, root)?;
    let at = nodes.seek(alloc, root, &leaf)?;
    let pfs = as_pfs(nodes, at)?;
    Ok(pfs)
}

/// The root of its root directory's inode, which isn't the super-root.
pub(super) fn open_directory(
    alloc: Global,
    nodes: &mut MemorySets,
    root: NodeId,
) -> Result<NodeId, Trouble>
    requires top { IsTop (forest_of nodes.old) root.0 }
    ensures top { IsTop (forest_of nodes.new) root.0 }
    ensures opened { IfOk result (λ c. IsOpened (forest_of nodes.new) (holds_of nodes.new) root.0 c.0) }
{
    let pfs = open_pfs(alloc, nodes, root)?;
    let leaf = leaf_in(alloc, nodes, root, pfs)?;
    let at = nodes.seek(alloc, pfs, &leaf)?;
    let dir = as_directory(nodes, at)?;
    Ok(dir)
}
