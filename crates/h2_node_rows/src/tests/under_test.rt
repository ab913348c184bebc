ghost use Rattle.std.specs.Prelude.{◌≡◌, ◌≤◌, IfOk, IfSome};
ghost use Rattle.h2_ref.specs.declared.reference.Ref.{Ref};
ghost use Rattle.h2_inode.specs.declared.inode.Inode.{Inode};
ghost use Rattle.h2_inode.specs.Nodes.{HasInode, IsUnloaded};
ghost use Rattle.h2_memory_sets.specs.Seen.{forest_of};
ghost use Rattle.h2_node_rows.specs.VolumeUnderTest.{IsTop, IsLeaf, IsVolume, IsEmptyDirectory, IsWorked, holds_of};

use crate::super_root;
use h2_inode::{Body, Inode, InodeKind, Nodes, PfsName};
use h2_memory_sets::MemorySets;
use h2_ref::{Check, Kind, Ref, Trouble};
use h2_set::{NodeId, Set, Sets};
use h2_tree::{insert, tree_law};
use std::alloc::Global;
use std::test::Fail;

/// The epoch of what is made.
const EPOCH: u64 = 5;

/// The number of the inode.
const NUMBER: u64 = 1;

/// Where its block lies: a place of a block of 1 KiB.
const PLACE: u64 = 1 << 22;

/// Inodes in memory: a super-root, and the leaf of one directory in its tree.
#[derive(Drop)]
pub(super) struct Volume {
    pub nodes: MemorySets,
    pub root: NodeId,
    pub leaf: Ref,
}

/// What is seen of an inode, and where its root is.
#[derive(Clone, Copy, Debug, PartialEq, Eq)]
pub(super) struct Seen {
    pub at: NodeId,
    pub kind: InodeKind,
    pub number: u64,
    pub size: u64,
    pub links: u32,
}

/// The directory of this size, with its root there.
pub(super) fn shown(at: NodeId, size: u64) -> Seen {
    Seen {
        at,
        kind: InodeKind::Directory,
        number: NUMBER,
        size,
        links: 1,
    }
}

impl Volume {
    /// A volume whose inode was neither made nor loaded.
    pub fn new(alloc: Global) -> Result<Volume, Fail>
        ensures volume { IfOk result (λ v. IsVolume (forest_of v.nodes) v.root.0 v.leaf) }
        ensures unloaded { IfOk result (λ v. let r : Ref = v.leaf in IsUnloaded (forest_of v.nodes) v.root.0 r.key) }
    {
        let (nodes, root) = super_root(alloc)?;
        let Some(leaf) = inode_leaf() else {
            return Err(Fail::new("no leaf of the tree"));
        };
        with_leaf(alloc, nodes, root, leaf)
    }

    /// Plants the directory with this size. None where no node is spare.
    pub fn plant(&mut self, size: u64) -> Option<Seen>
        requires volume { IsVolume (forest_of self.old.nodes) self.old.root.0 self.old.leaf }
        requires unloaded { let r : Ref = self.old.leaf in IsUnloaded (forest_of self.old.nodes) self.old.root.0 r.key }
        requires size { size ≤ 4096 }
        ensures volume { IsVolume (forest_of self.new.nodes) self.new.root.0 self.new.leaf }
        ensures worked { IfSome result (λ s. IsWorked (forest_of self.new.nodes) (holds_of self.new.nodes) s.at.0) }
    {
        if self.nodes.spare() < 1 {
            return None;
        }
        let at = self.nodes.plant(self.root, &self.leaf, directory(size));
        Some(see(&self.nodes, at))
    }

    /// Replaces the directory by one of another size.
    pub fn replace(&mut self, at: NodeId, size: u64) -> Seen
        requires volume { IsVolume (forest_of self.old.nodes) self.old.root.0 self.old.leaf }
        requires worked { IsWorked (forest_of self.old.nodes) (holds_of self.old.nodes) at.0 }
        requires size { size ≤ 4096 }
        ensures volume { IsVolume (forest_of self.new.nodes) self.new.root.0 self.new.leaf }
        ensures worked { IsWorked (forest_of self.new.nodes) (holds_of self.new.nodes) at.0 }
    {
        self.nodes.set_inode(at, directory(size));
        see(&self.nodes, at)
    }

    /// Holds a root, and lets it go again.
    pub fn hold_and_release(&mut self, at: NodeId)
        requires volume { IsVolume (forest_of self.old.nodes) self.old.root.0 self.old.leaf }
        requires worked { IsWorked (forest_of self.old.nodes) (holds_of self.old.nodes) at.0 }
        ensures { IsVolume (forest_of self.new.nodes) self.new.root.0 self.new.leaf }
    {
        self.nodes.hold(at);
        self.nodes.release(at);
    }

    /// The inode that the leaf names.
    pub fn seek(&mut self, alloc: Global) -> Result<Seen, Trouble>
        requires { IsVolume (forest_of self.old.nodes) self.old.root.0 self.old.leaf }
        ensures { IsVolume (forest_of self.new.nodes) self.new.root.0 self.new.leaf }
    {
        let at = self.nodes.seek(alloc, self.root, &self.leaf)?;
        Ok(see(&self.nodes, at))
    }

    /// Unloads the inode.
    pub fn unload(&mut self)
        requires { IsVolume (forest_of self.old.nodes) self.old.root.0 self.old.leaf }
        ensures { IsVolume (forest_of self.new.nodes) self.new.root.0 self.new.leaf }
    {
        self.nodes.unload_inodes();
    }

    pub fn fail_load(&mut self, which: u64)
        requires { IsVolume (forest_of self.old.nodes) self.old.root.0 self.old.leaf }
        ensures { IsVolume (forest_of self.new.nodes) self.new.root.0 self.new.leaf }
    {
        self.nodes.fail_load(which);
    }

    pub fn spoil_load(&mut self, which: u64)
        requires { IsVolume (forest_of self.old.nodes) self.old.root.0 self.old.leaf }
        ensures { IsVolume (forest_of self.new.nodes) self.new.root.0 self.new.leaf }
    {
        self.nodes.spoil_load(which);
    }
}

// Adds the leaf.
fn with_leaf(alloc: Global, mut nodes: MemorySets, root: NodeId, leaf: Ref) -> Result<Volume, Fail>
    requires empty { IsTop (forest_of nodes) root.0 }
    requires leaf { IsLeaf leaf }
    ensures volume { IfOk result (λ v. IsVolume (forest_of v.nodes) v.root.0 v.leaf) }
    ensures unloaded { IfOk result (λ v. let r : Ref = v.leaf in IsUnloaded (forest_of v.nodes) v.root.0 r.key) }
{
    if nodes.room() < 63 {
        return Err(Fail::new("no room"));
    }
    tree_law();
    let None = insert(alloc, &mut nodes, root, leaf)? else {
        return Err(Fail::new("a leaf in an empty tree"));
    };
    Ok(Volume { nodes, root, leaf })
}

// The leaf of inode 1.
fn inode_leaf() -> Option<Ref>
    ensures { IfSome result IsLeaf }
{
    let leaf = Ref {
        kind: Kind::Inode,
        key: NUMBER,
        keybits: 0,
        place: PLACE,
        radix: 10,
        id: EPOCH,
        check: Check::Xx(0),
        dirent: None,
    };
    if !leaf.valid() {
        return None;
    }
    Some(leaf)
}

// The directory with a size, whose tree has no leaf.
fn directory(size: u64) -> Inode
    requires { size ≤ 4096 }
    ensures { IsEmptyDirectory result }
{
    Inode {
        kind: InodeKind::Directory,
        number: NUMBER,
        size,
        links: 1,
        next: 0,
        name: PfsName::empty(),
        body: Body::Refs(Set::new(4)),
    }
}

// What is seen of the inode of a root.
fn see(nodes: &MemorySets, at: NodeId) -> Seen
    requires { (i : Inode) × HasInode (forest_of nodes.now) (holds_of nodes.now) at.0 i }
    ensures { result.at.0 ≡ at.0 }
{
    let inode = nodes.inode(at);
    Seen {
        at,
        kind: inode.kind,
        number: inode.number,
        size: inode.size,
        links: inode.links,
    }
}
