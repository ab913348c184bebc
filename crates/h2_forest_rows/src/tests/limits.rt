use super::running::{replies, replies_over, run};
use h2_command::{History, Item, Reply};
use std::alloc::{AllocError, Global};
use std::test::Fail;

// 4097 files in one directory.
fn creates(alloc: Global) -> Result<String, AllocError> {
    let mut lines = String::new(alloc);
    for i in 0..4097u32 {
        let line = format!(in alloc; "0 create ROOT:/e{i}\n")?;
        lines.push_str(line.as_str())?;
    }
    Ok(lines)
}

fn created(alloc: Global) -> Result<String, AllocError> {
    let mut lines = String::new(alloc);
    for i in 0..4096u32 {
        let line = format!(in alloc; "0 {i} ok\n")?;
        lines.push_str(line.as_str())?;
    }
    lines.push_str("0 4096 full\n")?;
    Ok(lines)
}

#[test]
fn a_directory_has_4096_entries(rt: HostRuntime) -> Result<(), Fail> {
    let lines = creates(rt.alloc())?;
    let want = created(rt.alloc())?;
    let told = replies(rt.alloc(), lines.as_str())?;
    assert_eq!(rt; told.as_str(), want.as_str());
    Ok(())
}

// A snapshot, and its end, in every 32nd round of 8 commands.
fn snapshot_line(alloc: Global, i: u32) -> Result<Option<String>, AllocError> {
    match i % 256 {
        6 => Ok(Some(format!(in alloc; "0 snapshot ROOT S{}\n", i / 256)?)),
        7 => Ok(Some(format!(in alloc; "0 pfs-delete S{}\n", i / 256)?)),
        _ => Ok(None),
    }
}

// A write in 8 rounds, and then a read in 8 rounds, each by one of the 8 handles that stay open.
fn file_line(alloc: Global, i: u32) -> Result<String, AllocError> {
    let handle = i / 8 % 8;
    let place = i as u64 * 7919 % 4_194_304;
    match i / 64 % 2 {
        0 => format!(in alloc;
            "0 write {handle} {place} r:{}:{}\n",
            1 + i % 65536,
            i % 256
        ),
        _ => format!(in alloc; "0 read {handle} {place} 1024\n"),
    }
}

// One command of a round. A round is about one of the 4096 names, and leaves it as it was: each command finds
// what the one before made. 8 handles are open, so that the next one is 8.
fn other_line(alloc: Global, i: u32) -> Result<String, AllocError> {
    let name = i / 8 % 4096;
    match i % 8 {
        0 => format!(in alloc; "0 mv ROOT:/d/e{name} ROOT:/d/x{name}\n"),
        1 => format!(in alloc; "0 stat ROOT:/d/x{name}\n"),
        2 => format!(in alloc; "0 link ROOT:/d/x{name} ROOT:/y{name}\n"),
        3 => format!(in alloc; "0 rm ROOT:/y{name}\n"),
        4 => format!(in alloc; "0 mv ROOT:/d/x{name} ROOT:/d/e{name}\n"),
        5 => file_line(alloc, i),
        6 => format!(in alloc; "0 open ROOT:/d/e{name}\n"),
        _ => format!(in alloc; "0 close 8\n"),
    }
}

fn long_line(alloc: Global, i: u32) -> Result<String, AllocError> {
    match snapshot_line(alloc, i)? {
        Some(line) => Ok(line),
        None => other_line(alloc, i),
    }
}

fn long_script(alloc: Global) -> Result<String, AllocError> {
    let mut lines = String::new(alloc);
    lines.push_str("0 mkdir ROOT:/d\n")?;
    for i in 0..4096u32 {
        let line = format!(in alloc; "0 create ROOT:/d/e{i}\n")?;
        lines.push_str(line.as_str())?;
    }
    for i in 0..8u32 {
        let line = format!(in alloc; "0 open ROOT:/d/e{i}\n0 write {i} 3145728 r:1048576:{i}\n")?;
        lines.push_str(line.as_str())?;
    }
    for i in 0..61423u32 {
        let line = long_line(alloc, i)?;
        lines.push_str(line.as_str())?;
    }
    Ok(lines)
}

// How many replies are Done, a file, a handle, bytes, a number of bytes written, and anything else.
fn replies_by_kind(history: &History) -> [u32; 6] {
    let mut counts = [0u32; 6];
    for item in history.items() {
        let kind: usize = match item {
            Item::Call(entry) => match &entry.reply {
                Reply::Done => 0,
                Reply::File { .. } => 1,
                Reply::Handle(_) => 2,
                Reply::Got(_) => 3,
                Reply::Wrote(_) => 4,
                _ => 5,
            },
            Item::Mark(_) => 5,
        };
        counts[kind] = counts[kind].saturating_add(1);
    }
    counts
}

// There are 7678 rounds, the last without its 8th command, and 240 of them have a snapshot and its end in the
// place of an open and a close. Done: 1 mkdir, 4096 creates, 4 commands in each of 7678 rounds, 240 snapshots and
// their ends, 7677 - 240 closes. A file: 7678. A handle: 8, and 7678 - 240. The 7678 rounds are 479 times 16,
// half of which write and half of which read, and 14 more, of which 8 write and 6 read; 8 writes come before.
#[test]
fn a_script_of_65536_commands_is_run_without_a_refusal(rt: HostRuntime) -> Result<(), Fail> {
    let alloc = rt.alloc();
    let lines = long_script(alloc)?;
    let running = run(alloc, lines.as_str(), None)?;
    assert_eq!(rt; running.history.items().len(), 65536);
    assert_eq!(rt;
        replies_by_kind(&running.history),
        [42726, 7678, 7446, 3838, 3848, 0]
    );
    let after = running.forest.cleaned(alloc).ok().ok_or("memory")?;
    let told = replies_over(
        alloc,
        after,
        "0 ls ROOT:/\n0 stat ROOT:/d\n0 stat ROOT:/d/e4095\n0 pfs-list",
    )?;
    assert_eq!(rt;
        told.as_str(),
        "0 0 list 1 d\n0 1 dir inode 2 entries 4096\n0 2 file inode 4098 links 1 size 0\n0 3 pfs 1 ROOT\n"
    );
    Ok(())
}
