use crate::{Choice, Disk, DiskFault, MemDisk};
use std::process::Abort;
use std::test::Fail;

// One call of a disk.
#[derive(Clone, Copy)]
enum Step {
    Write(u8, [u8; 2]),
    Sync,
    Read,
}

fn take_step(disk: &mut MemDisk, step: Step) -> Result<(), DiskFault> {
    match step {
        Step::Write(at, bytes) => disk.write(at as u64, &bytes),
        Step::Sync => disk.sync(),
        Step::Read => disk.read(0, &mut [0; 4]),
    }
}

// Takes the steps, of which exactly those that are so marked fail.
fn run(rt: &impl Abort, disk: &mut MemDisk, steps: &[(Step, Result<(), DiskFault>)]) {
    for (k, (call, want)) in steps.iter().enumerate() {
        assert_eq!(rt; take_step(disk, *call), *want, "step {k}");
    }
}

// The first four bytes of a disk.
fn first_bytes(disk: &mut MemDisk) -> Result<[u8; 4], DiskFault> {
    let mut buf = [9; 4];
    disk.read(0, &mut buf)?;
    Ok(buf)
}

#[test]
fn calls_fail_as_planned(rt: HostRuntime) -> Result<(), Fail> {
    let alloc = rt.alloc();
    let mut disk = MemDisk::new(alloc, vec![in alloc; 2, 4]?, vec![in alloc; 1]?)?;
    let failed = Err(DiskFault::Failed);
    let steps = [
        (Step::Write(0, *b"ab"), Ok(())),
        (Step::Write(0, *b"xy"), failed),
        (Step::Read, Ok(())),
        (Step::Read, failed),
        (Step::Write(2, *b"cd"), Ok(())),
        (Step::Sync, failed),
        (Step::Sync, Ok(())),
    ];
    run(&rt, &mut disk, &steps);
    assert_eq!(rt; disk.moment(), 6);
    assert_eq!(rt; first_bytes(&mut disk), Ok(*b"abcd"));
    Ok(())
}

// The first four bytes after a cut at the moment by each choice.
fn check_cuts(rt: &impl Abort, disk: &MemDisk, m: u64, want: [&[u8; 4]; 4]) -> Result<(), Fail> {
    let choices = [Choice::Old, Choice::New, Choice::Torn(1), Choice::Torn(400)];
    for k in 0..4usize {
        let mut cut = disk.cut(m, choices[k])?;
        let bytes = first_bytes(&mut cut)?;
        assert_eq!(rt;
            bytes.as_slice(),
            want[k].as_slice(),
            "moment {m}, choice {k}"
        );
    }
    Ok(())
}

#[test]
fn a_cut_leaves_what_its_choice_says(rt: HostRuntime) -> Result<(), Fail> {
    let alloc = rt.alloc();
    let mut disk = MemDisk::new(alloc, vec![in alloc; 6, 7]?, Vec::new(alloc))?;
    let failed = Err(DiskFault::Failed);
    // they begin at the moments 1, 2, 4, 5, 6, 7 and 8; the syncs are done at 3 and 9
    let steps = [
        (Step::Write(0, *b"ab"), Ok(())),
        (Step::Sync, Ok(())),
        (Step::Write(1, *b"xy"), Ok(())),
        (Step::Write(2, *b"mn"), Ok(())),
        (Step::Write(0, *b"!!"), failed),
        (Step::Sync, failed),
        (Step::Sync, Ok(())),
    ];
    run(&rt, &mut disk, &steps);
    let zeros = b"\0\0\0\0";
    let first = [zeros, b"ab\0\0", b"a\0\0\0", b"ab\0\0"];
    let last = [b"ab\0\0", b"axmn", b"axm\0", b"axmn"];
    let table = [
        [zeros; 4],
        first,
        first,
        [b"ab\0\0"; 4],
        [b"ab\0\0", b"axy\0", b"ax\0\0", b"axy\0"],
        last,
        last,
        last,
        last,
        [b"axmn"; 4],
    ];
    for (m, want) in table.iter().enumerate() {
        check_cuts(&rt, &disk, m as u64, *want)?;
    }
    Ok(())
}

#[test]
fn a_disk_begins_again(rt: HostRuntime) -> Result<(), Fail> {
    let alloc = rt.alloc();
    let mut disk = MemDisk::new(alloc, Vec::new(alloc), Vec::new(alloc))?;
    disk.poke(0, b"abcd")?;
    disk.write(1, b"x")?;
    let mut again = disk.again(vec![in alloc; 1]?, Vec::new(alloc))?;
    assert_eq!(rt; again.moment(), 0);
    again.poke(3, b"y")?;
    assert_eq!(rt; again.write(0, b"z"), Err(DiskFault::Failed));
    check_cuts(&rt, &again, 1, [b"axcy"; 4])
}
