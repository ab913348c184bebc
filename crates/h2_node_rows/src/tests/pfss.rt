ghost use Rattle.std.specs.Prelude.{◌≡◌, None, IfOk, IfSome, IsTrue};
ghost use Rattle.h2_set.specs.Forest.{Reaches};
ghost use Rattle.h2_memory_sets.specs.Seen.{forest_of};
ghost use Rattle.h2_node_rows.specs.LeafUnderTest.{IsNumberedLeaf};
ghost use Rattle.h2_node_rows.specs.PfsUnderTest.{IsNewPfs};
ghost use Rattle.h2_node_rows.specs.VolumeUnderTest.{IsTop};

use crate::{numbered_leaf, super_root};
use h2_inode::{Body, Inode, InodeKind, PfsName};
use h2_memory_sets::MemorySets;
use h2_num::{Names, NoMemory};
use h2_pfs::{PfsFault, pfs_add, pfs_find, pfs_names, pfs_remove};
use h2_ref::{Ref, Trouble};
use h2_set::{NodeId, Set};
use h2_tree::lookup;
use std::alloc::Global;
use std::test::Fail;

/// PFSs in memory: their super-root.
#[derive(Drop)]
pub(super) struct Pfss {
    pub nodes: MemorySets,
    pub root: NodeId,
}

impl Pfss {
    /// No PFS.
    pub fn new(alloc: Global) -> Result<Pfss, NoMemory>
        ensures { IfOk result (λ v. IsTop (forest_of v.nodes) v.root.0) }
    {
        let (nodes, root) = super_root(alloc)?;
        Ok(Pfss { nodes, root })
    }

    // Whether no PFS has the id.
    fn is_free(&mut self, alloc: Global, id: u64) -> Result<bool, Trouble>
        requires { IsTop (forest_of self.old.nodes) self.old.root.0 }
        ensures top { IsTop (forest_of self.new.nodes) self.new.root.0 }
        ensures free { IfOk result (λ b. IsTrue b → Reaches (forest_of self.new.nodes) id self.new.root.0 None) }
    {
        match lookup(alloc, &mut self.nodes, self.root, id)? {
            Some(_) => Ok(false),
            None => Ok(true),
        }
    }

    // Adds the PFS of an inode.
    fn found(&mut self, alloc: Global, leaf: Ref, inode: Inode) -> Result<(), PfsFault>
        requires top { IsTop (forest_of self.old.nodes) self.old.root.0 }
        requires leaf { IsNumberedLeaf leaf }
        requires inode { IsNewPfs inode }
        requires number { inode.number ≡ leaf.key }
        requires free { Reaches (forest_of self.old.nodes) leaf.key self.old.root.0 None }
        ensures { IsTop (forest_of self.new.nodes) self.new.root.0 }
    {
        if self.nodes.room() < 63 {
            return Err(PfsFault::Full);
        }
        pfs_add(alloc, &mut self.nodes, self.root, leaf, inode)
    }

    /// Adds a PFS with an id that none has.
    pub fn add(&mut self, alloc: Global, id: u64, name: &[u8]) -> Result<Result<(), PfsFault>, Fail>
        requires { IsTop (forest_of self.old.nodes) self.old.root.0 }
        ensures { IsTop (forest_of self.new.nodes) self.new.root.0 }
    {
        let (Some(leaf), Some(inode)) = (numbered_leaf(id), pfs(id, name)) else {
            return Err(Fail::new("no PFS"));
        };
        match self.is_free(alloc, id) {
            Ok(true) => Ok(self.found(alloc, leaf, inode)),
            Ok(false) => Err(Fail::new("a PFS has the id")),
            Err(trouble) => Ok(Err(PfsFault::Trouble(trouble))),
        }
    }

    pub fn find(&mut self, alloc: Global, name: &[u8]) -> Result<u64, PfsFault>
        requires { IsTop (forest_of self.old.nodes) self.old.root.0 }
        ensures { IsTop (forest_of self.new.nodes) self.new.root.0 }
    {
        pfs_find(alloc, &mut self.nodes, self.root, name)
    }

    pub fn names(&mut self, alloc: Global) -> Result<Names, Trouble>
        requires { IsTop (forest_of self.old.nodes) self.old.root.0 }
        ensures { IsTop (forest_of self.new.nodes) self.new.root.0 }
    {
        pfs_names(alloc, &mut self.nodes, self.root)
    }

    pub fn remove(&mut self, alloc: Global, name: &[u8], handles: u32) -> Result<(), PfsFault>
        requires { IsTop (forest_of self.old.nodes) self.old.root.0 }
        ensures { IsTop (forest_of self.new.nodes) self.new.root.0 }
    {
        if self.nodes.room() < 62 {
            return Err(PfsFault::Full);
        }
        pfs_remove(alloc, &mut self.nodes, self.root, name, handles)
    }

    /// Unloads all PFSs, and the blocks of the super-root's tree.
    pub fn unload(&mut self)
        requires { IsTop (forest_of self.old.nodes) self.old.root.0 }
        ensures { IsTop (forest_of self.new.nodes) self.new.root.0 }
    {
        self.nodes.unload_inodes();
        self.nodes.unload(0);
    }

    pub fn fail_load(&mut self, which: u64)
        requires { IsTop (forest_of self.old.nodes) self.old.root.0 }
        ensures { IsTop (forest_of self.new.nodes) self.new.root.0 }
    {
        self.nodes.fail_load(which);
    }

    pub fn spoil_load(&mut self, which: u64)
        requires { IsTop (forest_of self.old.nodes) self.old.root.0 }
        ensures { IsTop (forest_of self.new.nodes) self.new.root.0 }
    {
        self.nodes.spoil_load(which);
    }
}

// The inode of a PFS with an id and a name, whose tree has no leaf. None where no PFS may have them.
fn pfs(id: u64, name: &[u8]) -> Option<Inode>
    ensures pfs { IfSome result IsNewPfs }
    ensures number { IfSome result (λ i. i.number ≡ id) }
{
    let name = PfsName::from_slice(name)?;
    let inode = Inode {
        kind: InodeKind::Pfs,
        number: id,
        size: 0,
        links: 1,
        next: 2,
        name,
        body: Body::Refs(Set::new(4)),
    };
    if !inode.is_valid() {
        return None;
    }
    Some(inode)
}
