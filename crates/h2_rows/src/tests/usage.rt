use super::running::{USAGE, empty_disk, expect};
use h2_disk::{Disk, DiskFault, SureDisk};
use std::test::Fail;

#[test]
fn other_words_ask_for_nothing(rt: HostRuntime) -> Result<(), Fail> {
    let table: [&[&str]; 21] = [
        &[],
        &["--help"],
        &["frob", "IMG", "4"],
        &["FORMAT", "IMG", "4"],
        &["", "IMG", "4"],
        &["format"],
        &["format", "IMG"],
        &["format", "IMG", "4", "5"],
        &["format", "IMG", "3"],
        &["format", "IMG", "0"],
        &["format", "IMG", "513"],
        &["format", "IMG", "04"],
        &["format", "IMG", "+4"],
        &["format", "IMG", "-4"],
        &["format", "IMG", "4 "],
        &["format", "IMG", " 4"],
        &["format", "IMG", "4x"],
        &["format", "IMG", "four"],
        &["format", "IMG", ""],
        &["format", "IMG", "100000000000000000004"],
        &["format", "IMG", "18446744073709551620"],
    ];
    for words in table {
        let sure = expect(&rt, words, SureDisk::new(rt.alloc())?, 1, USAGE)?;
        assert_eq!(rt; sure.moment(), 0);
        let disk = empty_disk(rt.alloc(), &[], &[0])?;
        let mut disk = expect(&rt, words, disk, 1, USAGE)?;
        assert_eq!(rt; disk.moment(), 0);
        // the first read of the disk, which is to fail, wasn't made before
        assert_eq!(rt; disk.read(0, &mut [0; 4]), Err(DiskFault::Failed));
    }
    Ok(())
}
