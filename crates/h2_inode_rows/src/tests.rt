mod changed_inodes;
mod changed_names;
mod changed_refs;
mod changed_sets;
mod judging;

use h2_inode::{InodeFault, InodeKind, check_of, decode_inode, encode_inode};
use h2_ref::{Check, Kind, RefFault};
use std::test::Fail;

// A directory, from the format's table: kind 1, a body of references, 1 link, number 7, 2 entries, and no
// references.
fn directory() -> [u8; 1024] {
    let mut b = [0; 1024];
    b[0] = 1;
    b[4] = 1;
    b[8] = 7;
    b[16] = 2;
    b
}

// A file of 5 bytes in its inode, with 2 links.
fn file() -> [u8; 1024] {
    let mut b = [0; 1024];
    b[0] = 2;
    b[1] = 1;
    b[4] = 2;
    b[8] = 9;
    b[16] = 5;
    b[512] = b'h';
    b[516] = b'o';
    b
}

// The PFS 1 with the name `ROOT` and the next inode number 2, and one reference to the inode 1: kind 1, method
// 3, key 1, place 0x400400 with radix 10, id 1.
fn pfs() -> [u8; 1024] {
    let mut b = [0; 1024];
    b[0] = 3;
    b[4] = 1;
    b[8] = 1;
    b[24] = 2;
    b[32] = 4;
    b[48] = b'R';
    b[49] = b'O';
    b[50] = b'O';
    b[51] = b'T';
    b[512] = 1;
    b[513] = 3;
    b[520] = 1;
    b[528] = 0x0a;
    b[529] = 0x04;
    b[530] = 0x40;
    b[536] = 1;
    b
}

#[derive(Clone, Copy)]
enum Which {
    Directory,
    File,
    Pfs,
}

fn bytes_of(which: Which) -> [u8; 1024] {
    match which {
        Which::Directory => directory(),
        Which::File => file(),
        Which::Pfs => pfs(),
    }
}

// One byte changed: of which inode, where, to what, and the first fault by the format's order.
const SPOILED: [(Which, usize, u8, InodeFault); 30] = [
    (Which::Directory, 0, 0, InodeFault::Kind(0)),
    (Which::Directory, 0, 4, InodeFault::Kind(4)),
    (Which::Directory, 0, 3, InodeFault::Size(2)),
    (Which::Directory, 1, 1, InodeFault::Body),
    (Which::Directory, 2, 1, InodeFault::Padding(2)),
    (Which::Directory, 4, 2, InodeFault::Links(2)),
    (Which::Directory, 5, 1, InodeFault::Links(257)),
    (Which::Directory, 8, 0, InodeFault::Number),
    (Which::Directory, 15, 0x40, InodeFault::Number),
    (Which::Directory, 17, 0x10, InodeFault::Size(4098)),
    (Which::Directory, 24, 1, InodeFault::Next),
    (Which::Directory, 32, 1, InodeFault::Name),
    (Which::Directory, 40, 1, InodeFault::Padding(40)),
    (Which::Directory, 48, 1, InodeFault::Padding(48)),
    (Which::Directory, 511, 1, InodeFault::Padding(511)),
    (
        Which::Directory,
        512,
        9,
        InodeFault::Reference {
            at: 512,
            fault: RefFault::Kind(9),
        },
    ),
    (
        Which::Directory,
        896,
        9,
        InodeFault::Reference {
            at: 896,
            fault: RefFault::Kind(9),
        },
    ),
    (Which::File, 0, 1, InodeFault::Body),
    (Which::File, 1, 0, InodeFault::Body),
    (Which::File, 6, 1, InodeFault::Links(65538)),
    (Which::File, 17, 2, InodeFault::Body),
    (Which::File, 517, 1, InodeFault::Padding(517)),
    (Which::File, 1023, 1, InodeFault::Padding(1023)),
    (Which::Pfs, 16, 1, InodeFault::Size(1)),
    (Which::Pfs, 24, 1, InodeFault::Next),
    (Which::Pfs, 31, 0x80, InodeFault::Next),
    (Which::Pfs, 32, 65, InodeFault::Name),
    (Which::Pfs, 48, b' ', InodeFault::Name),
    (Which::Pfs, 52, b'X', InodeFault::Padding(52)),
    (
        Which::Pfs,
        520,
        0,
        InodeFault::Reference {
            at: 512,
            fault: RefFault::Key,
        },
    ),
];

#[test]
fn one_changed_byte_is_told_by_the_order(rt: HostRuntime) -> Result<(), Fail> {
    for (which, at, value, fault) in SPOILED {
        let mut b = bytes_of(which);
        assert!(rt; at < b.len());
        b[at] = value;
        let found = decode_inode(&b).err();
        assert_eq!(rt; found, Some(fault), "byte {at}");
    }
    Ok(())
}

#[test]
fn a_set_of_another_kind_is_no_body(rt: HostRuntime) -> Result<(), Fail> {
    // A directory with the PFS's reference to an inode, and a PFS with it behind an empty one.
    let mut mixed = directory();
    let whole = pfs();
    for at in 512..640usize {
        mixed[at] = whole[at];
    }
    assert_eq!(rt; decode_inode(&mixed).err(), Some(InodeFault::Shape));
    let mut late = pfs();
    for at in 512..640usize {
        late[at] = 0;
        late[at + 128] = whole[at];
    }
    assert_eq!(rt; decode_inode(&late).err(), Some(InodeFault::Shape));
    Ok(())
}

#[test]
fn inodes_are_spelled_both_ways(rt: HostRuntime) -> Result<(), Fail> {
    let found = decode_inode(&pfs()).ok().ok_or("no inode")?;
    assert_eq!(rt; found.kind, InodeKind::Pfs);
    assert_eq!(rt; found.number, 1);
    assert_eq!(rt; found.next, 2);
    assert_eq!(rt; found.name.as_slice(), b"ROOT".as_slice());
    assert_eq!(rt; encode_inode(&found).as_slice(), pfs().as_slice());
    let found = decode_inode(&file()).ok().ok_or("no inode")?;
    assert_eq!(rt; found.size, 5);
    assert_eq!(rt; found.links, 2);
    assert_eq!(rt; encode_inode(&found).as_slice(), file().as_slice());
    let found = decode_inode(&directory()).ok().ok_or("no inode")?;
    assert_eq!(rt; encode_inode(&found).as_slice(), directory().as_slice());
    Ok(())
}

// The XXH64 of `abc` is published.
#[test]
fn blocks_of_files_have_an_xxh64(rt: HostRuntime) {
    let check = Check::Xx(0x44BC_2CF5_AD77_0999);
    assert_eq!(rt; check_of(Kind::Content, b"abc"), check);
}
