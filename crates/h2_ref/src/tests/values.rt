use crate::{Check, Dirent, Kind, Ref, is_set};
use std::test::Fail;

/// A reference of each kind, and of each of the two rows of an entry.
pub fn samples() -> [Ref; 8] {
    let inode = Ref {
        kind: Kind::Inode,
        key: 7,
        keybits: 0,
        place: 0x40_0400,
        radix: 10,
        id: 5,
        check: Check::Xx(0x1100_0000_0000_7788),
        dirent: None,
    };
    let mut name = [0; 64];
    name[0] = b'a';
    name[1] = b'b';
    let short = Dirent {
        number: 9,
        len: 2,
        target: 2,
        name,
    };
    let long = Dirent {
        number: 10,
        len: 255,
        target: 1,
        name: [0; 64],
    };
    [
        Ref::empty(),
        inode,
        Ref {
            kind: Kind::Indirect,
            key: 3 << 62,
            keybits: 62,
            place: 0x40_1000,
            radix: 12,
            ..inode
        },
        Ref {
            kind: Kind::Content,
            key: 0x8000,
            keybits: 14,
            place: 0x40_8000,
            radix: 14,
            ..inode
        },
        Ref {
            kind: Kind::Dirent,
            key: 0x8000_0000_0001_0000,
            place: 0,
            radix: 0,
            check: Check::Nothing,
            dirent: Some(short),
            ..inode
        },
        Ref {
            kind: Kind::Dirent,
            key: 0x8000_0000_0001_0000,
            dirent: Some(long),
            ..inode
        },
        Ref {
            kind: Kind::MapNode,
            key: 0x1_0000_0000,
            keybits: 28,
            place: 0x1_0001_4400,
            check: Check::Crc(0xaa00_00dd),
            ..inode
        },
        Ref {
            kind: Kind::MapLeaf,
            key: 3 * 0x200_0000,
            keybits: 25,
            place: 3 * 0x200_0000 + 0x1_4000,
            check: Check::Crc(0xaa00_00dd),
            ..inode
        },
    ]
}

#[test]
fn samples_are_valid(rt: HostRuntime) -> Result<(), Fail> {
    let sizes = [0, 1024, 4096, 16384, 0, 1024, 1024, 1024];
    for (r, size) in samples().iter().zip(sizes) {
        assert!(rt; r.valid());
        assert!(rt; r.radix < 32);
        assert_eq!(rt; r.size(), size);
    }
    Ok(())
}

#[test]
fn values_outside_the_table_are_not_valid(rt: HostRuntime) -> Result<(), Fail> {
    let [empty, inode, indirect, content, short, long, node, leaf] = samples();
    let renamed = |r: Ref, len: u16, last: u8| {
        let mut name = [0; 64];
        name[63] = last;
        let entry = Dirent {
            number: 9,
            len,
            target: 2,
            name,
        };
        Ref {
            dirent: Some(entry),
            ..r
        }
    };
    let rows = [
        (Ref { id: 1, ..empty }, false),
        (
            Ref {
                kind: Kind::Inode,
                ..empty
            },
            false,
        ),
        (
            Ref {
                key: (1 << 62) - 1,
                ..inode
            },
            true,
        ),
        (
            Ref {
                key: 1 << 62,
                ..inode
            },
            false,
        ),
        (
            Ref {
                check: Check::Crc(1),
                ..inode
            },
            false,
        ),
        (Ref { radix: 12, ..inode }, false),
        (
            Ref {
                dirent: short.dirent,
                ..inode
            },
            false,
        ),
        (
            Ref {
                id: 1 << 62,
                ..inode
            },
            true,
        ),
        (
            Ref {
                id: (1 << 62) + 1,
                ..inode
            },
            false,
        ),
        (
            Ref {
                keybits: 63,
                key: 0,
                ..indirect
            },
            false,
        ),
        (
            Ref {
                keybits: 0,
                key: 0,
                ..indirect
            },
            false,
        ),
        (
            Ref {
                key: 1 << 40,
                ..content
            },
            false,
        ),
        (
            Ref {
                key: (1 << 40) - 16384,
                ..content
            },
            true,
        ),
        (
            Ref {
                place: 1 << 34,
                ..content
            },
            false,
        ),
        (
            Ref {
                place: (1 << 34) - 16384,
                ..content
            },
            true,
        ),
        (
            Ref {
                dirent: None,
                ..short
            },
            false,
        ),
        (
            Ref {
                key: (1 << 63) - 1,
                ..short
            },
            false,
        ),
        (renamed(short, 64, 1), true),
        (renamed(short, 63, 1), false),
        (renamed(short, 65, 0), false),
        (renamed(long, 65, 0), true),
        (renamed(long, 65, 1), false),
        (renamed(long, 64, 0), false),
        (renamed(long, 256, 0), false),
        (
            Ref {
                keybits: 31,
                key: 1 << 33,
                ..node
            },
            true,
        ),
        (
            Ref {
                keybits: 29,
                key: 1 << 33,
                ..node
            },
            false,
        ),
        (
            Ref {
                check: Check::Xx(1),
                ..leaf
            },
            false,
        ),
        (
            Ref {
                key: 1 << 34,
                ..leaf
            },
            false,
        ),
    ];
    for (i, (r, valid)) in rows.iter().enumerate() {
        assert_eq!(rt; r.valid(), *valid, "row {i}");
    }
    Ok(())
}

#[test]
fn a_set_ascends_and_ends_in_empty_ones(rt: HostRuntime) -> Result<(), Fail> {
    let [empty, inode, indirect, content, _, _, _, _] = samples();
    let one = Ref { key: 1, ..inode };
    let two = Ref { key: 2, ..inode };
    let three = Ref { key: 3, ..inode };
    let low = Ref {
        key: 0,
        keybits: 1,
        ..indirect
    };
    let high = Ref {
        key: 3 << 62,
        keybits: 62,
        ..indirect
    };
    let block = Ref { key: 0, ..content };
    let next = Ref {
        key: 16384,
        ..content
    };
    let rows = [
        ([empty, empty, empty], true),
        ([one, three, empty], true),
        ([one, two, three], true),
        ([low, two, high], true),
        ([block, next, high], true),
        ([low, one, empty], false),
        ([block, three, empty], false),
        ([high, empty, empty], true),
        ([high, one, empty], false),
        ([high, high, empty], false),
        ([one, one, empty], false),
        ([three, one, empty], false),
        ([one, empty, two], false),
        ([empty, one, two], false),
    ];
    for (i, (refs, expected)) in rows.iter().enumerate() {
        assert!(rt; refs[0].valid() && refs[1].valid() && refs[2].valid());
        assert_eq!(rt; is_set(refs), *expected, "row {i}");
    }
    Ok(())
}
