//! Scripts and their replies, worked out by hand.
use super::running::replies;
use std::test::Fail;

/// Refusals of many kinds, one after the other.
pub const REFUSALS: &str = "0 mkdir ROOT:/a
0 mv ROOT:/a ROOT:/a/b
0 create ROOT:/a/f
0 rmdir ROOT:/a
0 open ROOT:/a/f
0 pfs-delete ROOT
0 rm ROOT:/a
0 ls ROOT:/a/f
0 close 1
0 cut 0 1099511627777
0 ls NONE:/
0 stat ROOT:/x
0 mkdir ROOT:/a
0 rm ROOT:/a/f
0 rmdir ROOT:/a
";

/// A snapshot and its source, both written to.
pub const SNAPSHOT: &str = "0 create ROOT:/f
0 open ROOT:/f
0 write 0 0 x:6f6c64
0 snapshot ROOT SNAP
0 write 0 0 x:6e6577
0 open SNAP:/f
0 write 1 1 x:2d
0 read 0 0 8
0 read 1 0 8
0 pfs-list
";

// What each script is about, its lines, and the replies to them.
const ROWS: [(&str, &str, &str); 13] = [
    (
        "a file is written and read",
        "0 mkdir ROOT:/a
0 create ROOT:/a/f
0 open ROOT:/a/f
0 write 0 0 x:6869
0 read 0 0 10
0 ls ROOT:/a
0 stat ROOT:/a/f
",
        "0 0 ok
0 1 ok
0 2 handle 0
0 3 wrote 2
0 4 data 2 6869
0 5 list 1 f
0 6 file inode 3 links 1 size 2
",
    ),
    (
        "a file grows past 512 bytes",
        "0 create ROOT:/f
0 open ROOT:/f
0 write 0 0 r:512:7
0 write 0 512 x:07
0 stat ROOT:/f
",
        "0 0 ok
0 1 handle 0
0 2 wrote 512
0 3 wrote 1
0 4 file inode 2 links 1 size 513
",
    ),
    (
        "a hole reads as zeros, over two pages",
        "0 create ROOT:/f
0 open ROOT:/f
0 write 0 16383 x:010203
0 read 0 16380 10
",
        "0 0 ok
0 1 handle 0
0 2 wrote 3
0 3 data 6 000000010203
",
    ),
    (
        "names are listed in byte order",
        "0 create ROOT:/bbbbbbbbbbbbbbbbbbbbbbbbbbbbbbbbbbbbbbbbbbbbbbbbbbbbbbbbbbbbbbbbb
0 create ROOT:/ccccccccccccccccccccccccccccccccccccccccccccccccccccccccccccccccccccccccccccccccccccccccccccccccccccccccccccccccccccccccccccccccccccccccccccccccccccccccccccccccccccccccccccccccccccccccccccccccccccccccccccccccccccccccccccccccccccccccccccccccccccccccccccccc
0 create ROOT:/aaaaaaaaaaaaaaaaaaaaaaaaaaaaaaaaaaaaaaaaaaaaaaaaaaaaaaaaaaaaaaaa
0 ls ROOT:/
",
        "0 0 ok
0 1 ok
0 2 ok
0 3 list 3 aaaaaaaaaaaaaaaaaaaaaaaaaaaaaaaaaaaaaaaaaaaaaaaaaaaaaaaaaaaaaaaa bbbbbbbbbbbbbbbbbbbbbbbbbbbbbbbbbbbbbbbbbbbbbbbbbbbbbbbbbbbbbbbbb ccccccccccccccccccccccccccccccccccccccccccccccccccccccccccccccccccccccccccccccccccccccccccccccccccccccccccccccccccccccccccccccccccccccccccccccccccccccccccccccccccccccccccccccccccccccccccccccccccccccccccccccccccccccccccccccccccccccccccccccccccccccccccccccc
",
    ),
    (
        "a snapshot goes its own way",
        SNAPSHOT,
        "0 0 ok
0 1 handle 0
0 2 wrote 3
0 3 ok
0 4 wrote 3
0 5 handle 1
0 6 wrote 1
0 7 data 3 6e6577
0 8 data 3 6f2d64
0 9 pfs 2 ROOT SNAP
",
    ),
    (
        "a fresh volume has one PFS",
        "0 pfs-list
",
        "0 0 pfs 1 ROOT
",
    ),
    (
        "a file without a link is read through its handle",
        "0 create ROOT:/f
0 open ROOT:/f
0 write 0 0 r:600:66
0 rm ROOT:/f
0 read 0 598 9
0 bulkfree
0 bulkfree
0 read 0 598 9
0 close 0
",
        "0 0 ok
0 1 handle 0
0 2 wrote 600
0 3 ok
0 4 data 2 4242
0 5 ok
0 6 ok
0 7 data 2 4242
0 8 ok
",
    ),
    (
        "two clients write beside each other",
        "0 create ROOT:/f
0 open ROOT:/f
0 write 0 0 r:20000:97
1 open ROOT:/f
0 write 0 16383 x:010203
1 write 0 16384 x:0909
0 read 0 16382 5
",
        "0 0 ok
0 1 handle 0
0 2 wrote 20000
0 3 wrote 3
0 4 data 5 6101090961
1 0 handle 0
1 1 wrote 2
",
    ),
    (
        "each refusal, one after the other",
        REFUSALS,
        "0 0 ok
0 1 loop
0 2 ok
0 3 not-empty
0 4 handle 0
0 5 in-use 1
0 6 is-dir
0 7 not-dir
0 8 no-handle
0 9 long
0 10 no-pfs
0 11 no-entry
0 12 exists
0 13 ok
0 14 ok
",
    ),
    (
        "two clients and three phases",
        "0 mkdir ROOT:/home
0 pfs-create DATA
---
0 create ROOT:/home/log
0 open ROOT:/home/log
0 write 0 0 r:20000:97
1 create DATA:/b
1 open DATA:/b
1 write 0 0 x:01
---
0 snapshot ROOT KEEP
0 rm ROOT:/home/log
0 ls KEEP:/home
1 stat DATA:/b
",
        "0 0 ok
0 1 ok
0 2 ok
0 3 handle 0
0 4 wrote 20000
1 0 ok
1 1 handle 0
1 2 wrote 1
0 5 ok
0 6 ok
0 7 list 1 log
1 3 file inode 2 links 1 size 1
",
    ),
    (
        "17 handles",
        "0 create ROOT:/f
0 open ROOT:/f
0 open ROOT:/f
0 open ROOT:/f
0 open ROOT:/f
0 open ROOT:/f
0 open ROOT:/f
0 open ROOT:/f
0 open ROOT:/f
0 open ROOT:/f
0 open ROOT:/f
0 open ROOT:/f
0 open ROOT:/f
0 open ROOT:/f
0 open ROOT:/f
0 open ROOT:/f
0 open ROOT:/f
0 open ROOT:/f
0 write 0 0 r:20000:5
0 cut 0 3
0 read 0 0 9
0 link ROOT:/f ROOT:/g
0 stat ROOT:/g
",
        "0 0 ok
0 1 handle 0
0 2 handle 1
0 3 handle 2
0 4 handle 3
0 5 handle 4
0 6 handle 5
0 7 handle 6
0 8 handle 7
0 9 handle 8
0 10 handle 9
0 11 handle 10
0 12 handle 11
0 13 handle 12
0 14 handle 13
0 15 handle 14
0 16 handle 15
0 17 handles-full
0 18 wrote 20000
0 19 ok
0 20 data 3 050505
0 21 ok
0 22 file inode 2 links 2 size 3
",
    ),
    (
        "the largest file",
        "0 create ROOT:/f
0 open ROOT:/f
0 cut 0 1099511627776
0 read 0 1099511627774 9
0 write 0 1099511627775 x:07
0 write 0 1099511627775 x:0707
0 read 0 1099511627773 9
0 stat ROOT:/f
",
        "0 0 ok
0 1 handle 0
0 2 ok
0 3 data 2 0000
0 4 wrote 1
0 5 long
0 6 data 3 000007
0 7 file inode 2 links 1 size 1099511627776
",
    ),
    (
        "a snapshot lacks files without a link",
        "0 create ROOT:/f
0 open ROOT:/f
0 rm ROOT:/f
0 snapshot ROOT S
0 ls S:/
0 create S:/g
0 stat S:/g
0 read 0 0 1
",
        "0 0 ok
0 1 handle 0
0 2 ok
0 3 ok
0 4 list 0
0 5 ok
0 6 file inode 3 links 1 size 0
0 7 data 0
",
    ),
];

#[test]
fn scripts_get_their_replies(rt: HostRuntime) -> Result<(), Fail> {
    for (what, lines, want) in &ROWS {
        let told = replies(rt.alloc(), lines)?;
        assert_eq!(rt; told.as_str(), *want, "{what}");
    }
    Ok(())
}
