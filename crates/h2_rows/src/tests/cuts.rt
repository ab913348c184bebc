ghost use Rattle.std.specs.Prelude.{◌≤◌};

use super::running::{FORMAT_4, FORMATTED_4, FORMATTED_9, empty_disk, expect, newest_header};
use h2_disk::{Choice, Disk, MemDisk};
use std::process::Abort;
use std::test::Fail;

const CHOICES: [Choice; 5] = [
    Choice::Old,
    Choice::New,
    Choice::Torn(0),
    Choice::Torn(100),
    Choice::Torn(40000),
];

// The places of a new volume's blocks, in the order of their writes, and their first bytes.
const BLOCKS: [(u32, u8); 6] = [
    (4_194_304, 1),
    (4_195_328, 3),
    (65_536, 0x55),
    (33_619_968, 0x55),
    (67_174_400, 0x55),
    (100_728_832, 0x55),
];

// The newest header after a cut at the moment by each choice.
fn check_cuts(
    rt: &(impl Abort + AllocGlobal),
    disk: &MemDisk,
    m: u64,
    want: [Option<u64>; 5],
) -> Result<(), Fail> {
    for k in 0..5usize {
        let mut cut = disk.cut(m, CHOICES[k])?;
        let found = newest_header(rt.alloc(), &mut cut)?;
        assert_eq!(rt; found, want[k], "moment {m}, choice {k}");
    }
    Ok(())
}

// Cuts of a run that makes a volume: up to a moment there is no header. The header is written at the next one,
// and then the sync begins by which it is durable.
fn check_run(
    rt: &(impl Abort + AllocGlobal),
    words: &[&str],
    line: &str,
    last_without: u64,
) -> Result<(), Fail>
    requires { last_without ≤ 100 }
{
    let disk = empty_disk(rt.alloc(), &[], &[])?;
    let disk = expect(rt, words, disk, 0, line)?;
    for m in 0..=last_without {
        check_cuts(rt, &disk, m, [None; 5])?;
    }
    let whole_alone = [None, Some(1), None, None, None];
    check_cuts(rt, &disk, last_without + 1, whole_alone)?;
    check_cuts(rt, &disk, last_without + 2, whole_alone)?;
    check_cuts(rt, &disk, last_without + 3, [Some(1); 5])
}

#[test]
fn a_cut_leaves_no_header_or_the_first(rt: HostRuntime) -> Result<(), Fail> {
    check_run(&rt, &FORMAT_4, FORMATTED_4, 8)?;
    check_run(&rt, &["format", "IMG", "9"], FORMATTED_9, 15)
}

#[test]
fn blocks_are_written_in_order(rt: HostRuntime) -> Result<(), Fail> {
    let disk = empty_disk(rt.alloc(), &[], &[])?;
    let disk = expect(&rt, &FORMAT_4, disk, 0, FORMATTED_4)?;
    for m in 1..=6usize {
        let mut cut = disk.cut(m as u64, Choice::New)?;
        for k in 0..6usize {
            let (at, first) = BLOCKS[k];
            let mut block = [0; 1024];
            cut.read(u64::from(at), &mut block)?;
            if k < m {
                assert_eq!(rt; block[0], first, "moment {m}, place {at}");
            } else {
                assert_eq!(rt; block, [0; 1024], "moment {m}, place {at}");
            }
        }
    }
    Ok(())
}
