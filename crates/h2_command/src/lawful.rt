ghost use Rattle.std.specs.Prelude.{◌↔◌, ◌≡◌, IsTrue, All};
ghost use Rattle.h2_dirkey.specs.Name.{IsName};
ghost use Rattle.h2_dirkey.specs.PfsName.{IsPfsName};
ghost use Rattle.h2_command.specs.Lawful.{IsPath, IsEntryPath, AreInOnePfs, Lawful, IsLawfulItem};

use crate::command::Command;
use crate::history::{History, Item};
use crate::path::Path;
use h2_dirkey::{check_name, is_pfs_name};
use h2_num::Name;

/// The most bytes that one command reads or writes.
const DATA_BYTES: usize = 1_048_576;

/// How many clients there are.
const CLIENTS: u32 = 8;

#[tactic(auto, using(h2_dirkey::specs::NameLaws::no_fault))]
fn is_name(name: &Name) -> bool
    ensures { IsTrue result ↔ IsName name.now }
{
    match check_name(name.as_slice()) {
        Ok(()) => true,
        Err(_) => false,
    }
}

fn are_names(names: &[Name]) -> bool
    ensures { IsTrue result ↔ All IsName names.now }
{
    for name in names {
        if !is_name(name) {
            return false;
        }
    }
    true
}

fn is_path(path: &Path) -> bool
    ensures { IsTrue result ↔ IsPath path.now }
{
    if !is_pfs_name(path.pfs.as_slice()) {
        return false;
    }
    are_names(path.names.items())
}

fn is_entry_path(path: &Path) -> bool
    ensures { IsTrue result ↔ IsEntryPath path.now }
{
    if path.names.items().is_empty() {
        return false;
    }
    is_path(path)
}

fn same_name(a: &Name, b: &Name) -> bool
    ensures { IsTrue result ↔ (a.now ≡ b.now) }
{
    *a == *b
}

fn are_in_one_pfs(path: &Path, other: &Path) -> bool
    ensures { IsTrue result ↔ AreInOnePfs path.now other.now }
{
    if !is_entry_path(path) {
        return false;
    }
    if !is_entry_path(other) {
        return false;
    }
    same_name(&other.pfs, &path.pfs)
}

fn are_pfs_names(a: &Name, b: &Name) -> bool
    ensures { IsTrue result ↔ (IsPfsName a.now × IsPfsName b.now) }
{
    if !is_pfs_name(a.as_slice()) {
        return false;
    }
    is_pfs_name(b.as_slice())
}

impl Command {
    /// Whether a script can hold the command: its names are good, paths that lead to an entry have a name,
    /// two paths are in one PFS, and no more than 1,048,576 bytes are read or written.
    pub fn is_lawful(&self) -> bool
        ensures { IsTrue result ↔ Lawful self.now }
    {
        match self {
            Command::Mkdir(path) => is_entry_path(path),
            Command::Create(path) => is_entry_path(path),
            Command::Link(path, other) => are_in_one_pfs(path, other),
            Command::Rm(path) => is_entry_path(path),
            Command::Rmdir(path) => is_entry_path(path),
            Command::Mv(path, other) => are_in_one_pfs(path, other),
            Command::Ls(path) => is_path(path),
            Command::Stat(path) => is_path(path),
            Command::Attach(path) => is_path(path),
            Command::Close(_) => true,
            Command::ReadAt { len, .. } => *len as usize <= DATA_BYTES,
            Command::WriteAt { payload, .. } => payload.len() <= DATA_BYTES,
            Command::Cut { .. } => true,
            Command::Sync => true,
            Command::Bulkfree => true,
            Command::Snapshot { source, name } => are_pfs_names(source, name),
            Command::PfsCreate(name) => is_pfs_name(name.as_slice()),
            Command::PfsDelete(name) => is_pfs_name(name.as_slice()),
            Command::PfsList => true,
        }
    }
}

impl Item {
    /// Whether the item is a mark, or an entry of a client below 8 whose command is lawful.
    pub fn is_lawful(&self) -> bool
        ensures { IsTrue result ↔ IsLawfulItem self.now }
    {
        let Item::Call(entry) = self else {
            return true;
        };
        if entry.client >= CLIENTS {
            return false;
        }
        entry.command.is_lawful()
    }
}

impl History {
    /// Whether each item is lawful.
    pub fn is_lawful(&self) -> bool
        ensures { IsTrue result ↔ All IsLawfulItem self.now.items }
    {
        for item in self.items() {
            if !item.is_lawful() {
                return false;
            }
        }
        true
    }
}
