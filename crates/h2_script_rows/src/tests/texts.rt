use h2_command::{Command, Entry, History, Item, Mark, Reply, Why};
use h2_num::{Bytes, Name, Names, NoMemory};
use h2_script::{parse, text};
use std::alloc::Global;
use std::test::Fail;

// The only command of the line, which client 0 gives.
fn command(alloc: Global, line: &str) -> Result<Command, &'static str> {
    let Ok(mut script) = parse(alloc, line.as_bytes()) else {
        return Err("refused");
    };
    if script.phases() == 0 {
        return Err("no phase");
    }
    if script.len(0) == 0 {
        return Err("no command");
    }
    Ok(script.take(0, 0))
}

fn entry(phase: u32, client: u32, index: u32, reply: Reply) -> Item {
    Item::Call(Entry {
        phase,
        client,
        index,
        command: Command::PfsList,
        reply,
    })
}

fn names(alloc: Global, words: &[&str]) -> Result<Names, NoMemory> {
    let mut names = Names::new(alloc);
    for word in words {
        names.push(Name::from_slice(alloc, word.as_bytes())?)?;
    }
    Ok(names)
}

// The text of a history of these items.
fn text_of(alloc: Global, items: Vec<Item>) -> Result<Bytes, NoMemory> {
    let mut history = History::new(alloc);
    for item in items {
        history.push(item)?;
    }
    text(alloc, &history)
}

fn one(alloc: Global, reply: Reply) -> Result<Vec<Item>, NoMemory> {
    Ok(vec![in alloc; entry(3, 7, 65535, reply)]?)
}

// Replies that carry names or bytes, with their texts; an empty list has nothing after its number.
fn lists(alloc: Global) -> Result<Vec<(Reply, &'static str)>, NoMemory> {
    let none = names(alloc, &[])?;
    let two = names(alloc, &["a", "b.c"])?;
    let root = names(alloc, &["ROOT"])?;
    let no_pfs = names(alloc, &[])?;
    let empty = Bytes::from_slice(alloc, b"")?;
    let bytes = Bytes::from_slice(alloc, b"\x00\x0f\xa9\xff")?;
    let told = vec![in alloc;
        (Reply::List(none), "list 0"),
        (Reply::List(two), "list 2 a b.c"),
        (Reply::Pfs(root), "pfs 1 ROOT"),
        (Reply::Pfs(no_pfs), "pfs 0"),
        (Reply::Got(empty), "data 0"),
        (Reply::Got(bytes), "data 4 000fa9ff"),
    ]?;
    Ok(told)
}

// Replies of numbers, with their texts.
fn numbers(alloc: Global) -> Result<Vec<(Reply, &'static str)>, NoMemory> {
    let told = vec![in alloc;
        (
            Reply::Dir {
                number: 1,
                entries: 4096
            },
            "dir inode 1 entries 4096"
        ),
        (
            Reply::File {
                number: 3,
                links: 2,
                size: 1099511627776
            },
            "file inode 3 links 2 size 1099511627776"
        ),
        (Reply::Handle(15), "handle 15"),
        (Reply::Wrote(0), "wrote 0"),
        (Reply::Wrote(1048576), "wrote 1048576"),
        (
            Reply::Bulk {
                seen: 68,
                staged: 6209,
                freed: 0
            },
            "bulk seen 68 staged 6209 freed 0"
        ),
        (Reply::InUse(1), "in-use 1"),
    ]?;
    Ok(told)
}

// Refusals from outside the forest.
fn refusals(alloc: Global) -> Result<Vec<(Reply, &'static str)>, NoMemory> {
    let told = vec![in alloc;
        (Reply::Running(6), "running 6"),
        (
            Reply::NoSpace {
                need: 896,
                free: 891
            },
            "no-space 896 891"
        ),
        (
            Reply::Io {
                before: 1,
                after: 2
            },
            "io"
        ),
        (
            Reply::BadBlock {
                place: 4195328,
                why: Why::Inode
            },
            "bad-block 4195328"
        ),
        (Reply::NoMemory, "no-memory"),
    ]?;
    Ok(told)
}

// Replies of one word.
fn words(alloc: Global) -> Result<Vec<(Reply, &'static str)>, NoMemory> {
    let told = vec![in alloc;
        (Reply::Done, "ok"),
        (Reply::NoEntry, "no-entry"),
        (Reply::Exists, "exists"),
        (Reply::NotDir, "not-dir"),
        (Reply::IsDir, "is-dir"),
        (Reply::NotEmpty, "not-empty"),
        (Reply::Full, "full"),
        (Reply::LinksFull, "links-full"),
        (Reply::Loop, "loop"),
        (Reply::NoPfs, "no-pfs"),
        (Reply::NoHandle, "no-handle"),
        (Reply::HandlesFull, "handles-full"),
        (Reply::Long, "long"),
    ]?;
    Ok(told)
}

// Whether each reply has its text.
fn are_told(alloc: Global, table: Vec<(Reply, &str)>) -> Result<bool, NoMemory> {
    for (reply, want) in table {
        let told = text_of(alloc, one(alloc, reply)?)?;
        let line = format!(in alloc; "7 65535 {want}\n")?;
        if told.as_slice() != line.as_bytes() {
            return Ok(false);
        }
    }
    Ok(true)
}

#[test]
fn replies_have_their_text(rt: HostRuntime) -> Result<(), Fail> {
    let alloc = rt.alloc();
    let table = lists(alloc).ok().ok_or("memory")?;
    assert_eq!(rt; are_told(alloc, table), Ok(true));
    let table = numbers(alloc).ok().ok_or("memory")?;
    assert_eq!(rt; are_told(alloc, table), Ok(true));
    let table = words(alloc).ok().ok_or("memory")?;
    assert_eq!(rt; are_told(alloc, table), Ok(true));
    let table = refusals(alloc).ok().ok_or("memory")?;
    assert_eq!(rt; are_told(alloc, table), Ok(true));
    Ok(())
}

// A run of client 0: its commands and their replies.
fn run_of_one(alloc: Global) -> Result<Vec<(&'static str, Reply)>, NoMemory> {
    let got = Bytes::from_slice(alloc, b"hi")?;
    let listed = names(alloc, &["f"])?;
    let run = vec![in alloc;
        ("0 mkdir ROOT:/a", Reply::Done),
        ("0 create ROOT:/a/f", Reply::Done),
        ("0 open ROOT:/a/f", Reply::Handle(0)),
        ("0 write 0 0 x:6869", Reply::Wrote(2)),
        ("0 read 0 0 10", Reply::Got(got)),
        ("0 ls ROOT:/a", Reply::List(listed)),
        (
            "0 stat ROOT:/a/f",
            Reply::File {
                number: 3,
                links: 1,
                size: 2
            }
        ),
    ]?;
    Ok(run)
}

#[test]
fn a_run_is_told(rt: HostRuntime) -> Result<(), Fail> {
    let mut history = History::new(rt.alloc());
    let mut index: u32 = 0;
    for (line, reply) in run_of_one(rt.alloc()).ok().ok_or("memory")? {
        let command = command(rt.alloc(), line)?;
        let entry = Entry {
            phase: 0,
            client: 0,
            index,
            command,
            reply,
        };
        history.push(Item::Call(entry)).ok().ok_or("memory")?;
        index = index.wrapping_add(1);
    }
    let told = text(rt.alloc(), &history).ok().ok_or("memory")?;
    let want =
        b"0 0 ok\n0 1 ok\n0 2 handle 0\n0 3 wrote 2\n0 4 data 2 6869\n0 5 list 1 f\n0 6 file inode 3 links 1 size 2\n";
    assert_eq!(rt; told.as_slice(), want.as_slice());
    Ok(())
}

// A run of two clients in three phases, as its replies came.
fn run_of_two(alloc: Global) -> Result<Vec<Item>, NoMemory> {
    let listed = names(alloc, &["log"])?;
    let run = vec![in alloc;
        entry(0, 0, 0, Reply::Done),
        Item::Mark(Mark::Freeze {
            number: 2,
            moment: 3
        }),
        entry(0, 0, 1, Reply::Done),
        entry(1, 1, 0, Reply::Done),
        entry(1, 0, 2, Reply::Done),
        entry(1, 1, 1, Reply::Handle(0)),
        entry(1, 1, 2, Reply::Wrote(1)),
        entry(1, 0, 3, Reply::Handle(0)),
        Item::Mark(Mark::HeaderDone {
            number: 2,
            moment: 12
        }),
        entry(1, 0, 4, Reply::Wrote(20000)),
        entry(
            2,
            1,
            3,
            Reply::File {
                number: 2,
                links: 1,
                size: 1
            }
        ),
        entry(2, 0, 5, Reply::Done),
        entry(2, 0, 6, Reply::Done),
        entry(2, 0, 7, Reply::List(listed)),
    ]?;
    Ok(run)
}

#[test]
fn lines_stand_by_phase_and_client(rt: HostRuntime) -> Result<(), Fail> {
    let items = run_of_two(rt.alloc()).ok().ok_or("memory")?;
    let told = text_of(rt.alloc(), items).ok().ok_or("memory")?;
    let want =
        b"0 0 ok\n0 1 ok\n0 2 ok\n0 3 handle 0\n0 4 wrote 20000\n1 0 ok\n1 1 handle 0\n1 2 wrote 1\n0 5 ok\n0 6 ok\n0 7 list 1 log\n1 3 file inode 2 links 1 size 1\n";
    assert_eq!(rt; told.as_slice(), want.as_slice());
    let none = text(rt.alloc(), &History::new(rt.alloc()))
        .ok()
        .ok_or("memory")?;
    assert!(rt; none.as_slice().is_empty());
    Ok(())
}
