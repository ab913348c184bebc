use h2_num::{Bytes, Names};
use h2_ref::Why;

/// The reply to a command.
#[derive(Drop, Debug)]
pub enum Reply {
    /// It is done.
    Done,
    /// The names in a directory, in byte order.
    List(Names),
    /// A directory: its inode number, and how many entries it has.
    Dir { number: u64, entries: u32 },
    /// A file: its inode number, its links, and its size in bytes.
    File { number: u64, links: u32, size: u64 },
    /// The handle that was opened.
    Handle(u32),
    /// The bytes that were read.
    Got(Bytes),
    /// How many bytes were written.
    Wrote(u32),
    /// A pass ended: the chunks that were seen, and those that it staged and freed.
    Bulk { seen: u32, staged: u32, freed: u32 },
    /// The names of all PFSs, in the order of their ids.
    Pfs(Names),
    /// A name on the path isn't there.
    NoEntry,
    /// The name is there already.
    Exists,
    /// A name was looked up in a file, or a file stands where a directory is wanted.
    NotDir,
    /// A directory stands where a file is wanted.
    IsDir,
    /// The directory has entries.
    NotEmpty,
    /// The directory has 4096 entries, or there are 64 PFSs.
    Full,
    /// The file has 65535 links.
    LinksFull,
    /// The directory would go into itself.
    Loop,
    /// There is no such PFS.
    NoPfs,
    /// This many handles are open in the PFS.
    InUse(u32),
    /// The client has no such handle.
    NoHandle,
    /// The client has 16 handles.
    HandlesFull,
    /// The file would be longer than 2^40 bytes.
    Long,
    /// A pass of this client runs. From here on the refusals come from outside the forest.
    Running(u32),
    /// The command may need this many chunks, and so many are free.
    NoSpace { need: u64, free: u64 },
    /// The disk failed. Its count of faults before the step in which it failed, and after it.
    Io { before: u64, after: u64 },
    /// The block at this place doesn't pass its reference, and why it doesn't.
    BadBlock { place: u64, why: Why },
    /// There wasn't memory enough.
    NoMemory,
}
