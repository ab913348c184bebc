//! A directory under test: the root directory of a PFS in memory.
ghost use Rattle.std.specs.Prelude.{IfOk};
ghost use Rattle.h2_memory_sets.specs.Seen.{forest_of};
ghost use Rattle.h2_node_rows.specs.VolumeUnderTest.{IsTop};

use super::changing::{NewEntry, add_in, find_in, list_in, remove_in, spot_in, walk_in};
use super::making::made;
use h2_dir::DirFault;
use h2_memory_sets::MemorySets;
use h2_num::{Name, Names, NoMemory};
use h2_ref::Dirent;
use h2_set::NodeId;
use std::alloc::Global;
use std::test::Fail;

/// The root directory of PFS 1, by the super-root. Each call loads both inodes, where they aren't.
#[derive(Drop)]
pub(super) struct Directory {
    pub nodes: MemorySets,
    pub root: NodeId,
}

impl Directory {
    /// A directory without an entry.
    pub fn new(alloc: Global) -> Result<Directory, Fail>
        ensures { IfOk result (λ d. IsTop (forest_of d.nodes) d.root.0) }
    {
        let (nodes, root) = made(alloc)?;
        Ok(Directory { nodes, root })
    }

    /// The key and the entry that has the name.
    pub fn find(&mut self, alloc: Global, name: &[u8]) -> Result<(u64, Dirent), DirFault>
        requires { IsTop (forest_of self.old.nodes) self.old.root.0 }
        ensures { IsTop (forest_of self.new.nodes) self.new.root.0 }
    {
        find_in(alloc, &mut self.nodes, self.root, name)
    }

    /// The key that an entry with the name would get.
    pub fn spot(&mut self, alloc: Global, name: &[u8]) -> Result<u64, DirFault>
        requires { IsTop (forest_of self.old.nodes) self.old.root.0 }
        ensures { IsTop (forest_of self.new.nodes) self.new.root.0 }
    {
        spot_in(alloc, &mut self.nodes, self.root, name)
    }

    /// Adds an entry, and answers its key.
    pub fn add(&mut self, alloc: Global, entry: NewEntry) -> Result<u64, DirFault>
        requires { IsTop (forest_of self.old.nodes) self.old.root.0 }
        ensures { IsTop (forest_of self.new.nodes) self.new.root.0 }
    {
        add_in(alloc, &mut self.nodes, self.root, entry)
    }

    /// Takes the entry with the name out, and answers its key and what it said.
    pub fn remove(&mut self, alloc: Global, name: &[u8]) -> Result<(u64, Dirent), DirFault>
        requires { IsTop (forest_of self.old.nodes) self.old.root.0 }
        ensures { IsTop (forest_of self.new.nodes) self.new.root.0 }
    {
        remove_in(alloc, &mut self.nodes, self.root, name)
    }

    /// All entries.
    pub fn list(&mut self, alloc: Global) -> Result<Vec<(Name, u64)>, DirFault>
        requires { IsTop (forest_of self.old.nodes) self.old.root.0 }
        ensures { IsTop (forest_of self.new.nodes) self.new.root.0 }
    {
        list_in(alloc, &mut self.nodes, self.root)
    }

    /// The number of the inode that a path leads to.
    pub fn walk(&mut self, alloc: Global, names: &Names) -> Result<u64, DirFault>
        requires { IsTop (forest_of self.old.nodes) self.old.root.0 }
        ensures { IsTop (forest_of self.new.nodes) self.new.root.0 }
    {
        walk_in(alloc, &mut self.nodes, self.root, names)
    }

    /// Gives a name its block.
    pub fn add_name(&mut self, alloc: Global, place: u64, name: &[u8]) -> Result<(), NoMemory>
        requires { IsTop (forest_of self.old.nodes) self.old.root.0 }
        ensures { IsTop (forest_of self.new.nodes) self.new.root.0 }
    {
        self.nodes.add_name(alloc, place, name)
    }

    /// Unloads both inodes, with all blocks below them.
    pub fn unload(&mut self)
        requires { IsTop (forest_of self.old.nodes) self.old.root.0 }
        ensures { IsTop (forest_of self.new.nodes) self.new.root.0 }
    {
        self.nodes.unload_inodes();
        self.nodes.unload(0);
    }

    /// Lets the disk fail this load from now on.
    pub fn fail_load(&mut self, which: u64)
        requires { IsTop (forest_of self.old.nodes) self.old.root.0 }
        ensures { IsTop (forest_of self.new.nodes) self.new.root.0 }
    {
        self.nodes.fail_load(which);
    }

    /// Lets this load from now on meet a bad block.
    pub fn spoil_load(&mut self, which: u64)
        requires { IsTop (forest_of self.old.nodes) self.old.root.0 }
        ensures { IsTop (forest_of self.new.nodes) self.new.root.0 }
    {
        self.nodes.spoil_load(which);
    }
}
