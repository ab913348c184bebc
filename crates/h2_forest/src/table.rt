ghost use Rattle.std.specs.Prelude.{◌≡◌, ◌||◌, not, IfOk, OnOk, OnErr, IsSome, Some, None, false, length, ◌+◌, ◌^◌, ◌≤◌};
ghost use Rattle.std.specs.Option.{option_copied};
ghost use Rattle.std.specs.FinMap as map;
ghost use Rattle.h2_forest.specs.Node.{Entries};
ghost use Rattle.h2_forest.specs.Table.{entries_at, entered, left, looked_up, relinked, links_of, with_links, with_bytes, rewritten, is_orphan, without_orphans};
ghost use Rattle.h2_forest.specs.Forest.{bare_table, is_named};
ghost use Rattle.h2_contents.specs.Bytes.{written_at, cut_to};
ghost use Rattle.h2_contents.specs.Payload.{payload_bytes};

use crate::directory::Directory;
use crate::handles::Handles;
use h2_command::{Payload, Reply};
use h2_contents::Contents;
use h2_num::{Name, NoMemory};
use std::alloc::Global;
use std::collections::BTreeMap;
use std::marker::Model;

/// An inode.
#[derive(Drop)]
pub enum Node {
    File(Contents, u32),
    Directory(Directory),
}

impl Node {
    /// An equal value.
    fn copy(&self, alloc: Global) -> Result<Node, NoMemory>
        ensures { IfOk result (λ copy. copy ≡ self.now) }
    {
        match self {
            Node::File(contents, links) => Ok(Node::File(contents.copy(alloc)?, *links)),
            Node::Directory(entries) => Ok(Node::Directory(entries.copy(alloc)?)),
        }
    }

    /// Whether this is a file without a link.
    fn is_orphan(&self) -> bool
        ensures { result ≡ is_orphan (Some self.now) }
    {
        match self {
            Node::File(_, links) => *links == 0,
            Node::Directory(_) => false,
        }
    }

    /// Whether a trim leaves this inode, of this PFS and with this number.
    fn is_kept(&self, handles: &Handles, pfs: u64, number: u64) -> bool
        ensures { result ≡ (is_named handles.now pfs number || not (is_orphan (Some self.now))) }
    {
        handles.has(pfs, number) || !self.is_orphan()
    }

    /// Puts bytes at a place of a file; a directory stays. Want of memory changes nothing.
    fn write(&mut self, alloc: Global, off: u64, payload: &Payload) -> Result<(), NoMemory>
        requires few { length (payload_bytes payload.now) ≤ 1048576 }
        requires within { off + length (payload_bytes payload.now) ≤ 2 ^ 40 }
        ensures ok { OnOk result (self.new ≡ with_bytes (λ bytes. written_at bytes off (payload_bytes payload.now)) self.old) }
        ensures err { OnErr result (self.new ≡ self.old) }
    {
        match self {
            Node::File(contents, _) => contents.write(alloc, off, payload),
            Node::Directory(_) => Ok(()),
        }
    }

    /// Gives a file a size; a directory stays. Want of memory changes nothing.
    fn cut(&mut self, alloc: Global, size: u64) -> Result<(), NoMemory>
        requires { size ≤ 2 ^ 40 }
        ensures ok { OnOk result (self.new ≡ with_bytes (λ bytes. cut_to bytes size) self.old) }
        ensures err { OnErr result (self.new ≡ self.old) }
    {
        match self {
            Node::File(contents, _) => contents.cut(alloc, size),
            Node::Directory(_) => Ok(()),
        }
    }

    /// The file with another number of links; a directory as it is.
    fn with_links(self, links: u32) -> Node
        ensures { result ≡ with_links links self }
    {
        match self {
            Node::File(contents, _) => Node::File(contents, links),
            Node::Directory(entries) => Node::Directory(entries),
        }
    }
}

/// The inodes of one PFS by their numbers.
#[derive(Drop)]
pub struct Table {
    nodes: BTreeMap<u64, Node>,
}

impl Model for Table {
    ghost use Rattle.std.specs.Ordering.{nat_cmp};
    ghost use Rattle.std.specs.Coded.{coded_ℕ};
    ghost use Rattle.h2_forest.specs.declared.table.Node.{Node};
    ghost use Rattle.h2_forest.specs.Node.{node_code};
    ghost use Rattle.std.specs.FinMap as map;

    ghost Value = { map.FinMap nat_cmp Node };

    ghost coded = { map.code coded_ℕ node_code };

    ghost view = { λ t. map.from_entries t.nodes.entries };
}

impl Table {
    /// No inode.
    pub fn new(alloc: Global) -> Table
        ensures { result ≡ map.empty }
    {
        Table {
            nodes: BTreeMap::new(alloc),
        }
    }

    /// The inode with a number.
    pub fn node(&self, number: u64) -> Option<&Node>
        ensures { option_copied result ≡ map.get self.now number }
    {
        self.nodes.get(&number)
    }

    /// Puts an inode at a number, or changes nothing.
    pub fn insert(&mut self, number: u64, node: Node) -> Result<(), NoMemory>
        ensures ok { OnOk result (self.new ≡ map.insert self.old number node) }
        ensures err { OnErr result (self.new ≡ self.old) }
    {
        self.nodes.insert(number, node)?;
        Ok(())
    }

    /// Takes the inode at a number out.
    pub fn remove(&mut self, number: u64)
        ensures { self.new ≡ map.remove self.old number }
    {
        self.nodes.remove(&number);
    }

    /// Puts an inode in the place of another one, which comes back.
    pub fn replace(&mut self, number: u64, node: Node) -> Node
        requires { IsSome (map.get self.old number) }
        ensures before { map.get self.old number ≡ Some result }
        ensures after { self.new ≡ map.insert self.old number node }
    {
        match self.nodes.insert(number, node) {
            Ok(before) => before.unwrap(),
            Err(_) => unreachable!(),
        }
    }

    /// Enters a name in a directory, or changes nothing.
    pub fn enter(
        &mut self,
        alloc: Global,
        dir: u64,
        name: Name,
        number: u64,
    ) -> Result<(), NoMemory>
        requires { IsSome (entries_at self.old dir) }
        ensures ok { OnOk result (self.new ≡ entered self.old dir name number) }
        ensures err { OnErr result (self.new ≡ self.old) }
    {
        let mut node = self.replace(dir, Node::File(Contents::new(alloc), 0));
        let Node::Directory(entries) = &mut node else {
            unreachable!()
        };
        let done = entries.insert(name, number);
        let _ = self.replace(dir, node);
        done
    }

    /// Takes a name out of a directory.
    pub fn leave(&mut self, alloc: Global, dir: u64, name: &Name)
        requires { IsSome (entries_at self.old dir) }
        ensures { self.new ≡ left self.old dir name.now }
    {
        let mut node = self.replace(dir, Node::File(Contents::new(alloc), 0));
        let Node::Directory(entries) = &mut node else {
            unreachable!()
        };
        entries.remove(name);
        let _ = self.replace(dir, node);
    }

    /// The entries of a directory.
    pub fn entries(&self, number: u64) -> Option<&Directory>
        ensures { option_copied result ≡ entries_at self.now number }
    {
        match self.node(number) {
            Some(Node::Directory(entries)) => Some(entries),
            _ => None,
        }
    }

    /// What a name is in a directory.
    pub fn look_up(&self, dir: u64, name: &Name) -> Result<u64, Reply>
        ensures { result ≡ looked_up (entries_at self.now dir) name.now }
    {
        match self.entries(dir) {
            Some(entries) => match entries.find(name) {
                Some(number) => Ok(number),
                None => Err(Reply::NoEntry),
            },
            None => Err(Reply::NotDir),
        }
    }

    /// The links of a file, and 0 of any other number.
    pub fn links(&self, number: u64) -> u32
        ensures { result ≡ links_of (map.get self.now number) }
    {
        match self.node(number) {
            Some(Node::File(_, links)) => *links,
            _ => 0,
        }
    }

    /// Sets the number of a file's links.
    pub fn relink(&mut self, alloc: Global, number: u64, links: u32)
        ensures { self.new ≡ relinked self.old number links }
    {
        if self.node(number).is_none() {
            return;
        }
        let before = self.replace(number, Node::File(Contents::new(alloc), 0));
        let _ = self.replace(number, before.with_links(links));
    }

    /// Adds an inode under a name, or changes nothing.
    pub fn add(
        &mut self,
        alloc: Global,
        dir: u64,
        name: &Name,
        number: u64,
        node: Node,
    ) -> Result<(), NoMemory>
        requires directory { IsSome (entries_at self.old dir) }
        requires absent { (entries : Entries) → entries_at self.old dir ≡ Some entries → map.get entries name.now ≡ None }
        ensures ok { OnOk result (self.new ≡ map.insert (entered self.old dir name.now number) number node) }
        ensures err { OnErr result (self.new ≡ self.old) }
    {
        self.enter(alloc, dir, name.copy(alloc)?, number)?;
        match self.insert(number, node) {
            Ok(()) => Ok(()),
            Err(fault) => {
                self.leave(alloc, dir, name);
                Err(fault)
            }
        }
    }

    /// Bytes stand at a place of a file; or nothing changes.
    pub fn write(
        &mut self,
        alloc: Global,
        number: u64,
        off: u64,
        payload: &Payload,
    ) -> Result<(), NoMemory>
        requires few { length (payload_bytes payload.now) ≤ 1048576 }
        requires within { off + length (payload_bytes payload.now) ≤ 2 ^ 40 }
        ensures ok { OnOk result (self.new ≡ rewritten self.old number (λ bytes. written_at bytes off (payload_bytes payload.now))) }
        ensures err { OnErr result (self.new ≡ self.old) }
    {
        if self.node(number).is_none() {
            return Ok(());
        }
        let mut node = self.replace(number, Node::File(Contents::new(alloc), 0));
        let done = node.write(alloc, off, payload);
        let _ = self.replace(number, node);
        done
    }

    /// A file gets a size; or nothing changes.
    pub fn cut(&mut self, alloc: Global, number: u64, size: u64) -> Result<(), NoMemory>
        requires { size ≤ 2 ^ 40 }
        ensures ok { OnOk result (self.new ≡ rewritten self.old number (λ bytes. cut_to bytes size)) }
        ensures err { OnErr result (self.new ≡ self.old) }
    {
        if self.node(number).is_none() {
            return Ok(());
        }
        let mut node = self.replace(number, Node::File(Contents::new(alloc), 0));
        let done = node.cut(alloc, size);
        let _ = self.replace(number, node);
        done
    }

    /// A copy without the files that have no link.
    pub fn copy_linked(&self, alloc: Global) -> Result<Table, NoMemory>
        ensures { IfOk result (λ copy. copy ≡ without_orphans self.now (λ n. false)) }
    {
        let mut copy = Table::new(alloc);
        for (number, node) in self.nodes.iter() {
            if node.is_orphan() {
                continue;
            }
            copy.insert(*number, node.copy(alloc)?)?;
        }
        Ok(copy)
    }

    /// A copy without the files that have no link and that no handle names. This is the table of the PFS with the
    /// id `pfs`.
    pub fn copy_trimmed(
        &self,
        alloc: Global,
        handles: &Handles,
        pfs: u64,
    ) -> Result<Table, NoMemory>
        ensures { IfOk result (λ copy. copy ≡ without_orphans self.now (is_named handles.now pfs)) }
    {
        let mut copy = Table::new(alloc);
        for (number, node) in self.nodes.iter() {
            if !node.is_kept(handles, pfs, *number) {
                continue;
            }
            copy.insert(*number, node.copy(alloc)?)?;
        }
        Ok(copy)
    }
}

/// A root directory without entries.
pub fn bare_table(alloc: Global) -> Result<Table, NoMemory>
    ensures { IfOk result (λ t. t ≡ bare_table) }
{
    let mut table = Table::new(alloc);
    table.insert(1, Node::Directory(Directory::new(alloc)))?;
    Ok(table)
}
