use super::running::{
    ALREADY_1, DISK_FAULT, FORMAT_4, FORMATTED_4, empty_disk, expect, newest_header,
};
use h2_disk::{Disk, MemDisk};
use std::process::Abort;
use std::test::Fail;

// Formats a disk that fails, and then the same image without failures: the statuses and lines of both,
// and the moment of the first.
fn check_failure(
    rt: &(impl Abort + AllocGlobal),
    disk: MemDisk,
    moment: u64,
    then: (u8, &str),
) -> Result<(), Fail> {
    let alloc = rt.alloc();
    let disk = expect(rt, &FORMAT_4, disk, 5, DISK_FAULT)?;
    assert_eq!(rt; disk.moment(), moment);
    let again = disk.again(Vec::new(alloc), Vec::new(alloc))?;
    let (status, line) = then;
    let mut again = expect(rt, &FORMAT_4, again, status, line)?;
    assert_eq!(rt; newest_header(alloc, &mut again)?, Some(1));
    Ok(())
}

// The writes of the six blocks begin at the moments 1 to 6, the first sync at 7, the write of the
// header at 9 and the last sync at 10.
#[test]
fn each_write_and_sync_may_fail(rt: HostRuntime) -> Result<(), Fail> {
    for m in [1, 2, 3, 4, 5, 6, 7, 9] {
        let disk = empty_disk(rt.alloc(), &[m], &[])?;
        check_failure(&rt, disk, m, (0, FORMATTED_4))?;
    }
    let disk = empty_disk(rt.alloc(), &[10], &[])?;
    check_failure(&rt, disk, 10, (8, ALREADY_1))
}

#[test]
fn each_read_may_fail(rt: HostRuntime) -> Result<(), Fail> {
    for number in 0..4u64 {
        let disk = empty_disk(rt.alloc(), &[], &[number])?;
        check_failure(&rt, disk, 0, (0, FORMATTED_4))?;
    }
    Ok(())
}

// No write or sync begins at the moments 8 and 11, at which the syncs are done, and the four slots alone
// are read.
#[test]
fn failures_that_no_call_meets_do_nothing(rt: HostRuntime) -> Result<(), Fail> {
    let disk = empty_disk(rt.alloc(), &[8, 11, 12], &[4])?;
    let disk = expect(&rt, &FORMAT_4, disk, 0, FORMATTED_4)?;
    assert_eq!(rt; disk.moment(), 11);
    Ok(())
}
