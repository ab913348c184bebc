ghost use Rattle.std.specs.Prelude.{◌≡◌, ◌<◌, ◌≤◌, length, IfOk, OnOk, OnErr, Some, None, MatchOption, slice_index_or, is_some, ℕ};
ghost use Rattle.std.specs.FinMap as map;
ghost use Rattle.h2_forest.specs.Forest.{answer, fresh, pfs_named, pfs_with_id, in_pfs, ask_pfs, opened, write_reply, cut_reply, snapshot_reply, create_reply, delete_reply, with_pfs, bare_table, closed, trim, clean};
ghost use Rattle.h2_forest.specs.Pfs.{made, linked, unlinked, removed, moved, listed, stated};
ghost use Rattle.h2_contents.specs.Payload.{payload_bytes};
ghost use Rattle.h2_command.specs.Lawful.{Lawful};

use crate::directory::Directory;
use crate::handles::Handles;
use crate::pfs::{Pfs, follow};
use crate::pfs_list::{find_id, find_pfs, has_name, trim_pfss};
use crate::table::{Node, Table, bare_table};
use h2_command::{Command, Path, Payload, Reply};
use h2_contents::Contents;
use h2_num::{Bytes, Name, Names, NoMemory};
use std::alloc::Global;
use std::marker::Model;

/// The most PFSs.
const PFSS: usize = 64;

/// The most bytes that a file has.
const SIZE_LIMIT: u64 = 1_099_511_627_776;

/// The plain forest with the open handles: what the volume is for those who use it.
#[derive(Drop)]
pub struct Forest {
    next_pfs: u64,
    list: Vec<Pfs>,
    handles: Handles,
}

impl Model for Forest {
    ghost use Rattle.h2_forest.specs.Forest.{PlainForest};

    ghost Value = { PlainForest };

    ghost use Rattle.h2_forest.specs.Codes.{forest_code};

    ghost coded = { forest_code };

    ghost view = { λ f. record { next_pfs = f.next_pfs; pfss = f.list.items; handles = f.handles } };
}

impl Forest {
    /// The forest of a formatted volume: a PFS `ROOT` with an empty root directory. The error is want of
    /// memory.
    pub fn fresh(alloc: Global) -> Result<Forest, NoMemory>
        ensures { IfOk result (λ f. f ≡ fresh) }
    {
        let mut forest = Forest {
            next_pfs: 1,
            list: Vec::new(alloc),
            handles: Handles::new(alloc),
        };
        let name = Name::from_slice(alloc, b"ROOT")?;
        let table = bare_table(alloc)?;
        forest.add_pfs(name, 2, table)?;
        Ok(forest)
    }

    fn add_pfs(&mut self, name: Name, next: u64, table: Table) -> Result<(), NoMemory>
        ensures ok { OnOk result (self.new ≡ with_pfs self.old name next table) }
        ensures err { OnErr result (self.new ≡ self.old) }
    {
        let Some(after) = self.next_pfs.checked_add(1) else {
            return Err(NoMemory);
        };
        self.list.push(Pfs {
            id: self.next_pfs,
            name,
            next,
            table,
        })?;
        self.next_pfs = after;
        Ok(())
    }

    /// A forest of these PFSs, in the order of their ids, without open handles. The next PFS gets the id
    /// `next_pfs`.
    pub fn of_pfss(alloc: Global, next_pfs: u64, list: Vec<Pfs>) -> Forest
        ensures next_pfs { result.next_pfs ≡ next_pfs }
        ensures pfss { result.pfss ≡ list.items }
        ensures closed { result.handles ≡ map.empty }
    {
        Forest {
            next_pfs,
            list,
            handles: Handles::new(alloc),
        }
    }

    /// A copy without handles and without the files that have no link. The error is want of memory.
    pub fn cleaned(&self, alloc: Global) -> Result<Forest, NoMemory>
        ensures { IfOk result (λ f. f ≡ clean self.now) }
    {
        let none = Handles::new(alloc);
        let list = trim_pfss(alloc, &none, &self.list)?;
        Ok(Forest::of_pfss(alloc, self.next_pfs, list))
    }

    /// Takes out each file without a link that no handle names. Want of memory changes nothing.
    pub fn trim(&mut self, alloc: Global) -> Result<(), NoMemory>
        ensures ok { OnOk result (self.new ≡ trim self.old) }
        ensures err { OnErr result (self.new ≡ self.old) }
    {
        self.list = trim_pfss(alloc, &self.handles, &self.list)?;
        Ok(())
    }

    /// The PFSs, in the order of their ids.
    pub fn pfss(&self) -> &[Pfs]
        ensures { result.now ≡ self.now.pfss }
    {
        &self.list
    }

    /// Ends all handles. It takes no memory.
    pub fn close_all(&mut self, alloc: Global)
        ensures { self.new ≡ closed self.old }
    {
        self.handles = Handles::new(alloc);
    }

    /// The reply of the plain forest to a client's command, and the change that it makes. The client is below
    /// 8, and the command is lawful. Sync and Bulkfree are done and change nothing here. Want of memory
    /// changes nothing.
    pub fn apply(
        &mut self,
        alloc: Global,
        client: u32,
        command: &Command,
    ) -> Result<Reply, NoMemory>
        requires client { client < 8 }
        requires lawful { Lawful command.now }
        ensures ok { IfOk result (λ reply. (reply, self.new) ≡ answer self.old client command.now) }
        ensures err { OnErr result (self.new ≡ self.old) }
    {
        match command {
            Command::Mkdir(path) => {
                let node = Node::Directory(Directory::new(alloc));
                self.make(alloc, path, node)
            }
            Command::Create(path) => self.make(alloc, path, Node::File(Contents::new(alloc), 1)),
            Command::Link(path, new) => self.link(alloc, path, new),
            Command::Rm(path) => Ok(self.unlink(alloc, path)),
            Command::Rmdir(path) => Ok(self.remove(alloc, path)),
            Command::Mv(path, new) => self.move_to(alloc, path, new),
            Command::Ls(path) => self.list(alloc, path),
            Command::Stat(path) => self.state(path),
            Command::Attach(path) => self.attach(client, path),
            Command::Close(handle) => Ok(self.close(client, *handle)),
            Command::ReadAt { handle, off, len } => self.read(alloc, client, *handle, *off, *len),
            Command::WriteAt {
                handle,
                off,
                payload,
            } => self.write(alloc, client, *handle, *off, payload),
            Command::Cut { handle, size } => self.cut(alloc, client, *handle, *size),
            Command::Sync => Ok(Reply::Done),
            Command::Bulkfree => Ok(Reply::Done),
            Command::Snapshot { source, name } => self.snapshot(alloc, source, name),
            Command::PfsCreate(name) => self.create_pfs(alloc, name),
            Command::PfsDelete(name) => self.delete_pfs(name),
            Command::PfsList => self.names(alloc),
        }
    }

    fn make(&mut self, alloc: Global, path: &Path, node: Node) -> Result<Reply, NoMemory>
        requires { 0 < length path.now.names }
        ensures ok { IfOk result (λ reply. (reply, self.new) ≡ in_pfs self.old path.now.pfs (λ pfs. made pfs path.now.names node)) }
        ensures err { OnErr result (self.new ≡ self.old) }
    {
        let Some((at, _)) = find_pfs(&self.list, &path.pfs) else {
            return Ok(Reply::NoPfs);
        };
        let pfs = &mut self.list[at];
        pfs.make(alloc, path.names.items(), node)
    }

    fn link(&mut self, alloc: Global, path: &Path, new: &Path) -> Result<Reply, NoMemory>
        requires { 0 < length new.now.names }
        ensures ok { IfOk result (λ reply. (reply, self.new) ≡ in_pfs self.old path.now.pfs (λ pfs. linked pfs path.now.names new.now.names)) }
        ensures err { OnErr result (self.new ≡ self.old) }
    {
        let Some((at, _)) = find_pfs(&self.list, &path.pfs) else {
            return Ok(Reply::NoPfs);
        };
        let pfs = &mut self.list[at];
        pfs.link(alloc, path.names.items(), new.names.items())
    }

    fn unlink(&mut self, alloc: Global, path: &Path) -> Reply
        requires { 0 < length path.now.names }
        ensures { (result, self.new) ≡ in_pfs self.old path.now.pfs (λ pfs. unlinked pfs path.now.names) }
    {
        let Some((at, _)) = find_pfs(&self.list, &path.pfs) else {
            return Reply::NoPfs;
        };
        let pfs = &mut self.list[at];
        pfs.unlink(alloc, path.names.items())
    }

    fn remove(&mut self, alloc: Global, path: &Path) -> Reply
        requires { 0 < length path.now.names }
        ensures { (result, self.new) ≡ in_pfs self.old path.now.pfs (λ pfs. removed pfs path.now.names) }
    {
        let Some((at, _)) = find_pfs(&self.list, &path.pfs) else {
            return Reply::NoPfs;
        };
        let pfs = &mut self.list[at];
        pfs.remove(alloc, path.names.items())
    }

    fn move_to(&mut self, alloc: Global, path: &Path, new: &Path) -> Result<Reply, NoMemory>
        requires old_name { 0 < length path.now.names }
        requires new_name { 0 < length new.now.names }
        ensures ok { IfOk result (λ reply. (reply, self.new) ≡ in_pfs self.old path.now.pfs (λ pfs. moved pfs path.now.names new.now.names)) }
        ensures err { OnErr result (self.new ≡ self.old) }
    {
        let Some((at, _)) = find_pfs(&self.list, &path.pfs) else {
            return Ok(Reply::NoPfs);
        };
        let pfs = &mut self.list[at];
        pfs.move_to(alloc, path.names.items(), new.names.items())
    }

    fn list(&self, alloc: Global, path: &Path) -> Result<Reply, NoMemory>
        ensures { IfOk result (λ reply. (reply, self.now) ≡ ask_pfs self.now path.now.pfs (λ pfs. listed pfs path.now.names)) }
    {
        let Some((_, pfs)) = find_pfs(&self.list, &path.pfs) else {
            return Ok(Reply::NoPfs);
        };
        pfs.list(alloc, path.names.items())
    }

    fn state(&self, path: &Path) -> Result<Reply, NoMemory>
        ensures { IfOk result (λ reply. (reply, self.now) ≡ ask_pfs self.now path.now.pfs (λ pfs. stated pfs path.now.names)) }
    {
        let Some((_, pfs)) = find_pfs(&self.list, &path.pfs) else {
            return Ok(Reply::NoPfs);
        };
        pfs.state(path.names.items())
    }

    fn attach(&mut self, client: u32, path: &Path) -> Result<Reply, NoMemory>
        ensures ok { IfOk result (λ reply. (reply, self.new) ≡ answer self.old client (Command.Attach path.now)) }
        ensures err { OnErr result (self.new ≡ self.old) }
    {
        let Some((_, pfs)) = find_pfs(&self.list, &path.pfs) else {
            return Ok(Reply::NoPfs);
        };
        let inode = match follow(&pfs.table, 1, path.names.items()) {
            Ok(inode) => inode,
            Err(refusal) => return Ok(refusal),
        };
        if pfs.table.entries(inode).is_some() {
            return Ok(Reply::IsDir);
        }
        let Some(number) = self.handles.least_free(client) else {
            return Ok(Reply::HandlesFull);
        };
        self.handles.insert(client, number, pfs.id, inode)?;
        Ok(Reply::Handle(number))
    }

    fn close(&mut self, client: u32, handle: u32) -> Reply
        ensures { (result, self.new) ≡ answer self.old client (Command.Close handle) }
    {
        if self.handles.find(client, handle).is_none() {
            return Reply::NoHandle;
        }
        self.handles.remove(client, handle);
        Reply::Done
    }

    fn read(
        &self,
        alloc: Global,
        client: u32,
        handle: u32,
        off: u64,
        len: u32,
    ) -> Result<Reply, NoMemory>
        ensures { IfOk result (λ reply. (reply, self.now) ≡ answer self.now client (Command.ReadAt handle off len)) }
    {
        let Some((id, inode)) = self.handles.find(client, handle) else {
            return Ok(Reply::NoHandle);
        };
        let Some((_, pfs)) = find_id(&self.list, id) else {
            return Ok(Reply::NoHandle);
        };
        let Some(Node::File(contents, _)) = pfs.table.node(inode) else {
            return Ok(Reply::NoHandle);
        };
        Ok(Reply::Got(contents.read(alloc, off, len)?))
    }

    fn write(
        &mut self,
        alloc: Global,
        client: u32,
        handle: u32,
        off: u64,
        payload: &Payload,
    ) -> Result<Reply, NoMemory>
        requires { length (payload_bytes payload.now) ≤ 1048576 }
        ensures ok { IfOk result (λ reply. (reply, self.new) ≡ write_reply self.old (opened self.old client handle) off (payload_bytes payload.now)) }
        ensures err { OnErr result (self.new ≡ self.old) }
    {
        let Some((id, inode)) = self.handles.find(client, handle) else {
            return Ok(Reply::NoHandle);
        };
        let Some((at, _)) = find_id(&self.list, id) else {
            return Ok(Reply::NoHandle);
        };
        let count = payload.len() as u32;
        if off > SIZE_LIMIT {
            return Ok(Reply::Long);
        }
        if off + count as u64 > SIZE_LIMIT {
            return Ok(Reply::Long);
        }
        if count == 0 {
            return Ok(Reply::Wrote(0));
        }
        self.list[at].table.write(alloc, inode, off, payload)?;
        Ok(Reply::Wrote(count))
    }

    fn cut(&mut self, alloc: Global, client: u32, handle: u32, size: u64) -> Result<Reply, NoMemory>
        ensures ok { IfOk result (λ reply. (reply, self.new) ≡ cut_reply self.old (opened self.old client handle) size) }
        ensures err { OnErr result (self.new ≡ self.old) }
    {
        let Some((id, inode)) = self.handles.find(client, handle) else {
            return Ok(Reply::NoHandle);
        };
        let Some((at, _)) = find_id(&self.list, id) else {
            return Ok(Reply::NoHandle);
        };
        if size > SIZE_LIMIT {
            return Ok(Reply::Long);
        }
        self.list[at].table.cut(alloc, inode, size)?;
        Ok(Reply::Done)
    }

    fn snapshot(&mut self, alloc: Global, source: &Name, name: &Name) -> Result<Reply, NoMemory>
        ensures ok { IfOk result (λ reply. (reply, self.new) ≡ snapshot_reply self.old source.now name.now) }
        ensures err { OnErr result (self.new ≡ self.old) }
    {
        let Some((_, from)) = find_pfs(&self.list, source) else {
            return Ok(Reply::NoPfs);
        };
        if has_name(&self.list, name) {
            return Ok(Reply::Exists);
        }
        if self.list.len() >= PFSS {
            return Ok(Reply::Full);
        }
        let next = from.next;
        let table = from.table.copy_linked(alloc)?;
        self.add_pfs(name.copy(alloc)?, next, table)?;
        Ok(Reply::Done)
    }

    fn create_pfs(&mut self, alloc: Global, name: &Name) -> Result<Reply, NoMemory>
        ensures ok { IfOk result (λ reply. (reply, self.new) ≡ create_reply self.old name.now) }
        ensures err { OnErr result (self.new ≡ self.old) }
    {
        if has_name(&self.list, name) {
            return Ok(Reply::Exists);
        }
        if self.list.len() >= PFSS {
            return Ok(Reply::Full);
        }
        let table = bare_table(alloc)?;
        self.add_pfs(name.copy(alloc)?, 2, table)?;
        Ok(Reply::Done)
    }

    fn delete_pfs(&mut self, name: &Name) -> Result<Reply, NoMemory>
        ensures ok { IfOk result (λ reply. (reply, self.new) ≡ delete_reply self.old name.now) }
        ensures err { OnErr result (self.new ≡ self.old) }
    {
        let Some((at, pfs)) = find_pfs(&self.list, name) else {
            return Ok(Reply::NoPfs);
        };
        let Ok(open) = u32::try_from(self.handles.in_pfs(pfs.id)) else {
            return Err(NoMemory);
        };
        if open > 0 {
            return Ok(Reply::InUse(open));
        }
        let _ = self.list.remove(at);
        Ok(Reply::Done)
    }

    fn names(&self, alloc: Global) -> Result<Reply, NoMemory>
        ensures { IfOk result (λ reply. (reply, self.now) ≡ answer self.now 0 Command.PfsList) }
    {
        let mut names = Names::new(alloc);
        for pfs in &self.list {
            names.push(pfs.name.copy(alloc)?)?;
        }
        Ok(Reply::Pfs(names))
    }
}
