use super::running::{ALREADY_1, FORMAT_4, FORMATTED_4, FORMATTED_9, empty_disk, expect};
use h2_disk::{Disk, SureDisk};
use std::test::Fail;

#[test]
fn a_sure_disk_is_formatted_once(rt: HostRuntime) -> Result<(), Fail> {
    let disk = SureDisk::new(rt.alloc())?;
    let disk = expect(&rt, &FORMAT_4, disk, 0, FORMATTED_4)?;
    assert_eq!(rt; disk.moment(), 11);
    let disk = expect(&rt, &FORMAT_4, disk, 8, ALREADY_1)?;
    assert_eq!(rt; disk.moment(), 11);
    Ok(())
}

#[test]
fn a_disk_in_memory_is_formatted_once(rt: HostRuntime) -> Result<(), Fail> {
    let alloc = rt.alloc();
    let disk = expect(&rt, &FORMAT_4, empty_disk(alloc, &[], &[])?, 0, FORMATTED_4)?;
    assert_eq!(rt; disk.moment(), 11);
    let again = disk.again(Vec::new(alloc), Vec::new(alloc))?;
    let again = expect(&rt, &FORMAT_4, again, 8, ALREADY_1)?;
    assert_eq!(rt; again.moment(), 0);
    Ok(())
}

// How many zones, the line, and the moment after it: a write for each of the two inodes, of the blocks of the
// freemap and for the header, and two syncs of two moments each.
const VOLUMES: [(&str, &str, u64); 6] = [
    ("4", FORMATTED_4, 11),
    (
        "8",
        "formatted zones 8 chunks 16384 reserved 2048 free 14335\n",
        15,
    ),
    // nine leaves and two nodes
    ("9", FORMATTED_9, 18),
    // 64 leaves and eight nodes, then 65 leaves, nine nodes and two of level 2
    (
        "64",
        "formatted zones 64 chunks 131072 reserved 16384 free 114687\n",
        79,
    ),
    (
        "65",
        "formatted zones 65 chunks 133120 reserved 16640 free 116479\n",
        83,
    ),
    // 512 leaves, 64 nodes and eight of level 2
    (
        "512",
        "formatted zones 512 chunks 1048576 reserved 131072 free 917503\n",
        591,
    ),
];

#[test]
fn volumes_of_all_sizes_are_made(rt: HostRuntime) -> Result<(), Fail> {
    for (zones, line, moment) in VOLUMES {
        let words = ["format", "IMG", zones];
        let disk = expect(&rt, &words, SureDisk::new(rt.alloc())?, 0, line)?;
        assert_eq!(rt; disk.moment(), moment, "{zones} zones");
        let disk = expect(&rt, &words, disk, 8, ALREADY_1)?;
        assert_eq!(rt; disk.moment(), moment, "{zones} zones");
    }
    Ok(())
}
