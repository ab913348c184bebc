use crate::*;
use h2_num::{put32, put64};
use h2_ref::{Check, Kind, Ref};
use std::alloc::{AllocError, Global};
use std::test::Fail;

const ZONE: u64 = 33_554_432;

// The CRC-32C of the first 65532 bytes of `block`, computed bit by bit by a script in Python.
const CHECK: u32 = 0x96e8_d85d;

// The reference to an inode's block.
fn inode_ref(key: u64, place: u64, id: u64, check: u64) -> Ref {
    Ref {
        kind: Kind::Inode,
        key,
        keybits: 0,
        place,
        radix: 10,
        id,
        check: Check::Xx(check),
        dirent: None,
    }
}

// The reference to the leaf of one of the first zones, in copy 1 of the sixth map.
fn leaf_ref(zone: u8) -> Ref {
    let place = ZONE * zone as u64;
    Ref {
        kind: Kind::MapLeaf,
        key: place,
        keybits: 25,
        place: place + 65536 + 16384,
        radix: 10,
        id: 6,
        check: Check::Crc(0xa0b0_c0d0 + zone as u32),
        dirent: None,
    }
}

// The header of the sixth checkpoint of a volume of five zones with two PFSs. Its turn is 1.
fn header() -> Header {
    let none = Ref::empty();
    let first = inode_ref(1, 0x40_0000, 6, 0x1122_3344_5566_7788);
    let second = inode_ref(3, 0x40_0400, 5, 0x1122_3344_5566_7789);
    Header {
        number: 6,
        zones: 5,
        map_number: 6,
        next_pfs: 4,
        root: [first, second, none, none],
        map: [
            leaf_ref(0),
            leaf_ref(1),
            leaf_ref(2),
            leaf_ref(3),
            leaf_ref(4),
            none,
            none,
            none,
        ],
    }
}

// The numbers of its block, from the format's tables: the place, and eight bytes.
const NUMBERS: [(u16, u64); 39] = [
    // the magic, version and zones, the number, the map number and the next PFS id
    (0, 0x454d_554c_4f56_3248),
    (8, 0x0000_0005_0000_0001),
    (16, 6),
    (24, 6),
    (32, 4),
    // the super-root: kind 1 and method 3, the key, the place and radix, the id, and the check
    (512, 0x0301),
    (520, 1),
    (528, 0x40_000a),
    (536, 6),
    (576, 0x1122_3344_5566_7788),
    (640, 0x0301),
    (648, 3),
    (656, 0x40_040a),
    (664, 5),
    (704, 0x1122_3344_5566_7789),
    // the map: kind 6, method 5 and 25 key bits
    (1024, 0x0019_0506),
    (1040, 0x0001_400a),
    (1048, 6),
    (1088, 0xa0b0_c0d0),
    (1152, 0x0019_0506),
    (1160, 0x0200_0000),
    (1168, 0x0201_400a),
    (1176, 6),
    (1216, 0xa0b0_c0d1),
    (1280, 0x0019_0506),
    (1288, 0x0400_0000),
    (1296, 0x0401_400a),
    (1304, 6),
    (1344, 0xa0b0_c0d2),
    (1408, 0x0019_0506),
    (1416, 0x0600_0000),
    (1424, 0x0601_400a),
    (1432, 6),
    (1472, 0xa0b0_c0d3),
    (1536, 0x0019_0506),
    (1544, 0x0800_0000),
    (1552, 0x0801_400a),
    (1560, 6),
    (1600, 0xa0b0_c0d4),
];

fn put_at(block: &mut [u8], at: u16, number: u64) {
    if at as usize + 8 <= block.len() {
        put64(block, at as usize, number);
    }
}

// The block of the header, by hand.
pub fn block(alloc: Global) -> Result<Vec<u8>, AllocError> {
    let mut block = vec![in alloc; 0u8; 65536]?;
    for (at, number) in NUMBERS {
        put_at(&mut block, at, number);
    }
    if block.len() == 65536 {
        put32(&mut block, 65532, CHECK);
    }
    Ok(block)
}

#[test]
fn a_header_is_spelled_both_ways(rt: HostRuntime) -> Result<(), Fail> {
    let block = block(rt.alloc())?;
    let mut out = vec![in rt.alloc(); 0xffu8; 65536]?;
    assert_eq!(rt; block.len(), HEADER_BYTES);
    for slot in 0..4u32 {
        let expected = if slot == 1 {
            Ok(header())
        } else {
            Err(HeadFault::Field(16))
        };
        assert_eq!(rt; read_from(&block, slot), expected, "slot {slot}");
    }
    let Ok(read) = read_from(&block, 1) else {
        return Err("no header")?;
    };
    assert_eq!(rt; out.len(), HEADER_BYTES);
    write_into(&read, &mut out);
    assert_eq!(rt; out.as_slice(), block.as_slice());
    Ok(())
}

#[test]
fn the_greatest_number_is_the_newest(rt: HostRuntime) -> Result<(), Fail> {
    let of = |number: u64| {
        if number == 0 {
            None
        } else {
            Some(Header { number, ..header() })
        }
    };
    let rows = [
        ([0, 0, 0, 0], None),
        ([0, 0, 3, 0], Some(2)),
        ([5, 6, 3, 4], Some(1)),
        ([1, 2, 3, 4], Some(3)),
        ([9, 6, 7, 8], Some(0)),
        ([0, 2, 2, 1], Some(1)),
    ];
    for ([a, b, c, d], slot) in rows {
        let headers = [of(a), of(b), of(c), of(d)];
        assert_eq!(rt; newest(&headers), slot);
    }
    Ok(())
}

#[test]
fn a_map_block_has_its_crc(rt: HostRuntime) -> Result<(), Fail> {
    // the published value of CRC-32C
    for kind in [Kind::MapNode, Kind::MapLeaf] {
        assert_eq!(rt; check_of(kind, b"123456789"), Check::Crc(0xe306_9283));
    }
    Ok(())
}
