ghost use Rattle.std.specs.Prelude.{◌≡◌, ◌≤◌, ◌+◌, ◌*◌, IfOk, IfSome, length, true};
ghost use Rattle.h2_ref.specs.declared.reference.Ref.{Ref};
ghost use Rattle.h2_set.specs.Forest.{Reaches};
ghost use Rattle.h2_set.specs.RefSet.{RefSet};
ghost use Rattle.h2_inode.specs.declared.inode.Body.TheVariants.{Refs};
ghost use Rattle.h2_inode.specs.declared.inode.Inode.{Inode};
ghost use Rattle.h2_inode.specs.Nodes.{HasInode, IsInodeLeaf, IsUnloaded};
ghost use Rattle.h2_memory_sets.specs.Seen.{forest_of};
ghost use Rattle.h2_file.specs.Blocks.{IsFile, IsFileOfRefs};
ghost use Rattle.h2_file.specs.Cutting.{IsCutBlock};
ghost use Rattle.h2_file.specs.Linking.{AreBlocks};
ghost use Rattle.h2_node_rows.specs.VolumeUnderTest.{IsTop, holds_of};
ghost use Rattle.h2_file_rows.specs.FileUnderTest.{IsNewFile, HasSomeInode, IfNewUnloaded};
ghost use Rattle.h2_node_rows.specs.LeafUnderTest.{IsNumberedLeaf};

use h2_file::{cut_blocks, link_blocks, read_block};
use h2_inode::{Body, Inode, InodeKind, Nodes, PfsName};
use h2_memory_sets::MemorySets;
use h2_node_rows::{numbered_leaf, super_root};
use h2_num::NoMemory;
use h2_ref::{Kind, Ref, Trouble};
use h2_set::{NodeId, Sets};
use h2_tree::{insert, lookup, tree_law};
use std::alloc::Global;

/// Files in memory: a super-root whose leaves name files.
#[derive(Drop)]
pub(super) struct Files {
    pub nodes: MemorySets,
    pub root: NodeId,
}

/// Why a call on a file is refused.
#[derive(Clone, Copy, Debug, PartialEq, Eq)]
pub(super) enum Refused {
    /// No leaf names a file with the number.
    NoFile,
    /// The body of the file is bytes.
    NoBlocks,
    /// Too few blocks can be taken.
    NoRoom,
    /// A load failed, or memory ran out.
    Trouble(Trouble),
}

impl From<Trouble> for Refused {
    ghost use Rattle.std.specs.Prelude.{◌≡◌};
    ghost use Rattle.h2_file_rows.specs.declared.tests.files.Refused.TheVariants.{Trouble as Troubled};

    ghost from_gives = { λ trouble refused. refused ≡ Troubled trouble };

    fn from(trouble: Trouble) -> Refused {
        Refused::Trouble(trouble)
    }
}

impl Files {
    /// No file.
    pub fn new(alloc: Global) -> Result<Files, NoMemory>
        ensures { IfOk result (λ v. IsTop (forest_of v.nodes) v.root.0) }
    {
        let (nodes, root) = super_root(alloc)?;
        Ok(Files { nodes, root })
    }

    /// Adds an empty file with the number.
    pub fn add(&mut self, alloc: Global, number: u64) -> Result<(), Refused>
        requires { IsTop (forest_of self.old.nodes) self.old.root.0 }
        ensures { IsTop (forest_of self.new.nodes) self.new.root.0 }
    {
        let (Some(leaf), Some(inode)) = (numbered_leaf(number), file(number)) else {
            return Err(Refused::NoFile);
        };
        if self.nodes.room() < 63 {
            return Err(Refused::NoRoom);
        }
        let None = self.insert_leaf(alloc, leaf)? else {
            return Err(Refused::NoFile);
        };
        if self.nodes.spare() < 1 {
            return Err(Refused::NoRoom);
        }
        self.plant(&leaf, inode);
        Ok(())
    }

    // Adds the leaf of a file, or puts it in place of the one with its key.
    fn insert_leaf(&mut self, alloc: Global, leaf: Ref) -> Result<Option<Ref>, Trouble>
        requires top { IsTop (forest_of self.old.nodes) self.old.root.0 }
        requires leaf { IsNumberedLeaf leaf }
        requires room { let f = forest_of self.old.nodes in 63 ≤ f.room }
        ensures top { IsTop (forest_of self.new.nodes) self.new.root.0 }
        ensures leaf { IfOk result (λ o. IsInodeLeaf (forest_of self.new.nodes) self.new.root.0 leaf) }
        ensures unloaded { IfOk result (IfNewUnloaded (forest_of self.new.nodes) self.new.root.0 leaf.key) }
    {
        tree_law();
        insert(alloc, &mut self.nodes, self.root, leaf)
    }

    // Plants the file that a leaf names.
    fn plant(&mut self, leaf: &Ref, inode: Inode)
        requires top { IsTop (forest_of self.old.nodes) self.old.root.0 }
        requires leaf { IsInodeLeaf (forest_of self.old.nodes) self.old.root.0 leaf.now }
        requires unloaded { let r : Ref = leaf.now in IsUnloaded (forest_of self.old.nodes) self.old.root.0 r.key }
        requires number { let r : Ref = leaf.now in inode.number ≡ r.key }
        requires file { IsNewFile inode }
        requires spare { let f = forest_of self.old.nodes in 1 ≤ f.spare }
        ensures { IsTop (forest_of self.new.nodes) self.new.root.0 }
    {
        self.nodes.plant(self.root, leaf, inode);
    }

    // The leaf of the super-root's tree with a key.
    fn leaf_at(&mut self, alloc: Global, key: u64) -> Result<Option<Ref>, Trouble>
        requires { IsTop (forest_of self.old.nodes) self.old.root.0 }
        ensures top { IsTop (forest_of self.new.nodes) self.new.root.0 }
        ensures path { IfOk result (Reaches (forest_of self.new.nodes) key self.new.root.0) }
    {
        lookup(alloc, &mut self.nodes, self.root, key)
    }

    // The root of the inode that a leaf names.
    fn seek(&mut self, alloc: Global, leaf: &Ref) -> Result<NodeId, Trouble>
        requires top { IsTop (forest_of self.old.nodes) self.old.root.0 }
        requires leaf { IsInodeLeaf (forest_of self.old.nodes) self.old.root.0 leaf.now }
        ensures top { IsTop (forest_of self.new.nodes) self.new.root.0 }
        ensures inode { IfOk result (λ c. HasSomeInode (forest_of self.new.nodes) (holds_of self.new.nodes) c.0) }
    {
        self.nodes.seek(alloc, self.root, leaf)
    }

    // The root of the inode with the number.
    fn open(&mut self, alloc: Global, number: u64) -> Result<NodeId, Refused>
        requires { IsTop (forest_of self.old.nodes) self.old.root.0 }
        ensures top { IsTop (forest_of self.new.nodes) self.new.root.0 }
        ensures inode { IfOk result (λ c. HasSomeInode (forest_of self.new.nodes) (holds_of self.new.nodes) c.0) }
    {
        let Some(leaf) = self.leaf_at(alloc, number)? else {
            return Err(Refused::NoFile);
        };
        if leaf.kind != Kind::Inode {
            return Err(Refused::NoFile);
        }
        if leaf.key != number {
            return Err(Refused::NoFile);
        }
        let at = self.seek(alloc, &leaf)?;
        Ok(at)
    }

    // The inode of a root.
    fn inode(&self, at: NodeId) -> &Inode
        requires { HasSomeInode (forest_of self.now.nodes) (holds_of self.now.nodes) at.0 }
        ensures { HasInode (forest_of self.now.nodes) (holds_of self.now.nodes) at.0 result.now }
    {
        self.nodes.inode(at)
    }

    // Whether a root is that of a file.
    fn is_file(&self, at: NodeId) -> bool
        requires { HasSomeInode (forest_of self.now.nodes) (holds_of self.now.nodes) at.0 }
        ensures { result ≡ true → IsFile (forest_of self.now.nodes) (holds_of self.now.nodes) at.0 }
    {
        is_file(self.inode(at))
    }

    // Whether a root is that of a file whose body is references.
    fn is_file_of_refs(&self, at: NodeId) -> bool
        requires { HasSomeInode (forest_of self.now.nodes) (holds_of self.now.nodes) at.0 }
        ensures { result ≡ true → IsFileOfRefs (forest_of self.now.nodes) (holds_of self.now.nodes) at.0 }
    {
        is_file_of_refs(self.inode(at))
    }

    // The reference of the file's block that holds a byte.
    fn read_at(&mut self, alloc: Global, at: NodeId, start: u64) -> Result<Option<Ref>, Trouble>
        requires top { IsTop (forest_of self.old.nodes) self.old.root.0 }
        requires file { IsFileOfRefs (forest_of self.old.nodes) (holds_of self.old.nodes) at.0 }
        ensures { IsTop (forest_of self.new.nodes) self.new.root.0 }
    {
        read_block(alloc, &mut self.nodes, at, start)
    }

    // Makes the references those of a file, and sets its size.
    fn link_at(&mut self, alloc: Global, at: NodeId, refs: &[Ref], size: u64) -> Result<(), Trouble>
        requires top { IsTop (forest_of self.old.nodes) self.old.root.0 }
        requires file { IsFile (forest_of self.old.nodes) (holds_of self.old.nodes) at.0 }
        requires blocks { AreBlocks refs.now }
        requires room { let f = forest_of self.old.nodes in 7 * length refs.now + 186 ≤ f.room }
        ensures { IsTop (forest_of self.new.nodes) self.new.root.0 }
    {
        link_blocks(alloc, &mut self.nodes, at, refs, size)
    }

    // Cuts a file to a size.
    fn cut_at(
        &mut self,
        alloc: Global,
        at: NodeId,
        size: u64,
        last: Option<Ref>,
    ) -> Result<(), Trouble>
        requires top { IsTop (forest_of self.old.nodes) self.old.root.0 }
        requires file { IsFileOfRefs (forest_of self.old.nodes) (holds_of self.old.nodes) at.0 }
        requires room { let f = forest_of self.old.nodes in 62 ≤ f.room }
        requires last { IfSome last (IsCutBlock size) }
        ensures { IsTop (forest_of self.new.nodes) self.new.root.0 }
    {
        cut_blocks(alloc, &mut self.nodes, at, size, last)
    }

    /// The size of a file.
    pub fn size(&mut self, alloc: Global, number: u64) -> Result<u64, Refused>
        requires { IsTop (forest_of self.old.nodes) self.old.root.0 }
        ensures { IsTop (forest_of self.new.nodes) self.new.root.0 }
    {
        let at = self.open(alloc, number)?;
        Ok(self.inode(at).size)
    }

    /// The reference of the file's block that holds a byte.
    pub fn read(&mut self, alloc: Global, number: u64, start: u64) -> Result<Option<Ref>, Refused>
        requires { IsTop (forest_of self.old.nodes) self.old.root.0 }
        ensures { IsTop (forest_of self.new.nodes) self.new.root.0 }
    {
        let at = self.open(alloc, number)?;
        if !self.is_file_of_refs(at) {
            return Err(Refused::NoBlocks);
        }
        let found = self.read_at(alloc, at, start)?;
        Ok(found)
    }

    /// Makes the references the file's, and sets its size.
    pub fn link(
        &mut self,
        alloc: Global,
        number: u64,
        refs: &[Ref],
        size: u64,
    ) -> Result<(), Refused>
        requires top { IsTop (forest_of self.old.nodes) self.old.root.0 }
        requires blocks { AreBlocks refs.now }
        ensures { IsTop (forest_of self.new.nodes) self.new.root.0 }
    {
        let at = self.open(alloc, number)?;
        if !self.is_file(at) {
            return Err(Refused::NoFile);
        }
        if refs.len() > 66 {
            return Err(Refused::NoRoom);
        }
        if self.nodes.room() < 7 * refs.len() as u64 + 186 {
            return Err(Refused::NoRoom);
        }
        self.link_at(alloc, at, refs, size)?;
        Ok(())
    }

    /// Cuts the file to a size, with `last` in place of the reference of the block that the cut ends in.
    pub fn cut(
        &mut self,
        alloc: Global,
        number: u64,
        size: u64,
        last: Option<Ref>,
    ) -> Result<(), Refused>
        requires top { IsTop (forest_of self.old.nodes) self.old.root.0 }
        requires last { IfSome last (IsCutBlock size) }
        ensures { IsTop (forest_of self.new.nodes) self.new.root.0 }
    {
        let at = self.open(alloc, number)?;
        if !self.is_file_of_refs(at) {
            return Err(Refused::NoBlocks);
        }
        if self.nodes.room() < 62 {
            return Err(Refused::NoRoom);
        }
        self.cut_at(alloc, at, size, last)?;
        Ok(())
    }

    /// Unloads all files, and the blocks below them.
    pub fn unload(&mut self)
        requires { IsTop (forest_of self.old.nodes) self.old.root.0 }
        ensures { IsTop (forest_of self.new.nodes) self.new.root.0 }
    {
        self.nodes.unload_inodes();
    }

    /// Begins an epoch, in which no node is writable yet. None where it was the last one.
    pub fn begin_epoch(&mut self) -> Option<()>
        requires { IsTop (forest_of self.old.nodes) self.old.root.0 }
        ensures { IsTop (forest_of self.new.nodes) self.new.root.0 }
    {
        if self.nodes.epoch() >= 1 << 62 {
            return None;
        }
        self.nodes.begin_epoch();
        Some(())
    }

    pub fn fail_load(&mut self, which: u64)
        requires { IsTop (forest_of self.old.nodes) self.old.root.0 }
        ensures { IsTop (forest_of self.new.nodes) self.new.root.0 }
    {
        self.nodes.fail_load(which);
    }

    pub fn spoil_load(&mut self, which: u64)
        requires { IsTop (forest_of self.old.nodes) self.old.root.0 }
        ensures { IsTop (forest_of self.new.nodes) self.new.root.0 }
    {
        self.nodes.spoil_load(which);
    }

    pub fn refuse_spare(&mut self, which: u64)
        requires { IsTop (forest_of self.old.nodes) self.old.root.0 }
        ensures { IsTop (forest_of self.new.nodes) self.new.root.0 }
    {
        self.nodes.refuse_spare(which);
    }
}

// Whether an inode is that of a file.
fn is_file(inode: &Inode) -> bool
    ensures { result ≡ true → inode.now.kind ≡ InodeKind.File }
{
    inode.kind == InodeKind::File
}

// Whether the body of an inode is references.
fn has_refs(inode: &Inode) -> bool
    ensures { result ≡ true → (s : RefSet) × (inode.now.body ≡ Refs s) }
{
    match &inode.body {
        Body::Refs(_) => true,
        Body::Bytes(_) => false,
    }
}

// Whether an inode is that of a file whose body is references.
fn is_file_of_refs(inode: &Inode) -> bool
    ensures file { result ≡ true → inode.now.kind ≡ InodeKind.File }
    ensures refs { result ≡ true → (s : RefSet) × (inode.now.body ≡ Refs s) }
{
    if !is_file(inode) {
        return false;
    }
    has_refs(inode)
}

// The inode of an empty file. None where no file has the number.
fn file(number: u64) -> Option<Inode>
    ensures file { IfSome result IsNewFile }
    ensures number { IfSome result (λ i. i.number ≡ number) }
{
    let inode = Inode {
        kind: InodeKind::File,
        number,
        size: 0,
        links: 1,
        next: 0,
        name: PfsName::empty(),
        body: Body::Bytes([0; 512]),
    };
    if !inode.is_valid() {
        return None;
    }
    Some(inode)
}
