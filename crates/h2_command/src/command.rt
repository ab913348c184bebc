use crate::path::Path;
use h2_contents::Payload;
use h2_num::Name;

/// A command of a client. A place in a file, a length and a size are counted in bytes.
#[derive(Drop, Debug)]
pub enum Command {
    /// Makes a directory.
    Mkdir(Path),
    /// Makes a file without bytes.
    Create(Path),
    /// Gives the file at the first path the second as one more name.
    Link(Path, Path),
    /// Takes a name of a file away.
    Rm(Path),
    /// Takes an empty directory away.
    Rmdir(Path),
    /// Moves a file or a directory from the first path to the second.
    Mv(Path, Path),
    /// Asks for the names in a directory.
    Ls(Path),
    /// Asks what stands at a path.
    Stat(Path),
    /// Opens a file: the command `open` of a script.
    Attach(Path),
    /// Closes a handle.
    Close(u32),
    /// Reads at most `len` bytes from the place `off` on.
    ReadAt {
        handle: u32,
        off: u64,
        len: u32,
    },
    /// Writes bytes at the place `off`.
    WriteAt {
        handle: u32,
        off: u64,
        payload: Payload,
    },
    /// Makes a file's size smaller or larger.
    Cut {
        handle: u32,
        size: u64,
    },
    /// Makes all that was done durable.
    Sync,
    /// Runs a pass that frees what is unused.
    Bulkfree,
    /// Makes a new PFS with what another has.
    Snapshot {
        source: Name,
        name: Name,
    },
    /// Makes an empty PFS.
    PfsCreate(Name),
    /// Takes a PFS away.
    PfsDelete(Name),
    /// Asks for the names of all PFSs.
    PfsList,
}
