use h2_codes::{Code, Segment};
use h2_freeleaf::{MapFault, decode_leaf, decode_node, encode_leaf, encode_node};
use h2_num::put64;
use h2_ref::{Check, Kind, Ref};
use std::test::Fail;

// The place of a block on the disk: that of the leaf of zone 1 in copy 2.
const PLACE: u64 = 33_652_736;

// The segments of a zone: the first is reserved, the third has three chunks that aren't free.
fn segments() -> [Segment; 8] {
    let mut segments = [Segment::new(false); 8];
    segments[0] = Segment::new(true);
    segments[2].set(0, Code::Used);
    segments[2].set(1, Code::Staged);
    segments[2].set(255, Code::Reserved);
    segments
}

// The bytes of their leaf, by hand. A byte of four reserved chunks is 1 + 4 + 16 + 64 = 85. The third segment has
// 3 + 2 * 4 = 11 in its first byte, 1 * 64 in the last, and 253 = 0xfd free chunks. All others have 256 = 0x0100.
fn leaf_bytes() -> [u8; 1024] {
    let mut b = [0; 1024];
    for k in 0..64usize {
        b[k] = 85;
    }
    for i in 1..8usize {
        b[128 * i + 65] = 1;
    }
    b[256] = 11;
    b[319] = 64;
    b[320] = 0xfd;
    b[321] = 0;
    b
}

// Codes of the leaf: the segment, the chunk in it, and its code.
const CODES: [(u8, u8, Code); 6] = [
    (0, 17, Code::Reserved),
    (1, 0, Code::Free),
    (2, 0, Code::Used),
    (2, 1, Code::Staged),
    (2, 255, Code::Reserved),
    (7, 255, Code::Free),
];

pub fn code_of(leaf: &[Segment; 8], segment: u8, chunk: u8) -> Code {
    leaf[segment as usize % 8].get(chunk)
}

// Changes of the lowest bit of bytes of the leaf, and what is refused then: nothing where a used chunk becomes a
// staged one.
const LEAF_FAULTS: [(&[u16], Option<MapFault>); 11] = [
    (&[3], Some(MapFault::Shape(PLACE + 64))),
    (&[64], Some(MapFault::Shape(PLACE + 64))),
    (&[67], Some(MapFault::Shape(PLACE + 64))),
    (&[68], Some(MapFault::Padding(PLACE + 68))),
    (&[127], Some(MapFault::Padding(PLACE + 127))),
    (&[256], None),
    (&[321], Some(MapFault::Shape(PLACE + 320))),
    (&[1023], Some(MapFault::Padding(PLACE + 1023))),
    (&[1023, 69], Some(MapFault::Padding(PLACE + 69))),
    (&[68, 65], Some(MapFault::Shape(PLACE + 64))),
    (&[193, 127], Some(MapFault::Padding(PLACE + 127))),
];

#[test]
fn leaves_by_hand(rt: HostRuntime) -> Result<(), Fail> {
    let want = leaf_bytes();
    assert_eq!(rt; encode_leaf(&segments()).as_slice(), want.as_slice());
    let Ok(found) = decode_leaf(&want, PLACE) else {
        return Err("no leaf")?;
    };
    for (segment, chunk, code) in CODES {
        assert_eq!(rt; code_of(&found, segment, chunk), code);
    }
    assert_eq!(rt; encode_leaf(&found).as_slice(), want.as_slice());
    for (changes, fault) in LEAF_FAULTS {
        let mut b = leaf_bytes();
        for at in changes.iter() {
            b[*at as usize % 1024] ^= 1;
        }
        assert_eq!(rt; decode_leaf(&b, PLACE).err(), fault);
    }
    Ok(())
}

// The last place that a block may have: its last byte is at 2^64 - 1.
const LAST_PLACE: u64 = 0xffff_ffff_ffff_fc00;

#[test]
fn places_of_64_bits_are_named(rt: HostRuntime) -> Result<(), Fail> {
    let mut b = leaf_bytes();
    b[1023] = 1;
    let fault = MapFault::Padding(0xffff_ffff_ffff_ffff);
    assert_eq!(rt; decode_leaf(&b, LAST_PLACE).err(), Some(fault));
    let mut b = node_bytes();
    b[1023] = 1;
    let fault = MapFault::Reference(0xffff_ffff_ffff_ff80);
    assert_eq!(rt; decode_node(&b, LAST_PLACE), Err(fault));
    Ok(())
}

// The reference to the leaf of one of the first zones, in copy 2 of the third map.
fn leaf_ref(zone: u8) -> Ref {
    let place = 33_554_432 * zone as u64;
    Ref {
        kind: Kind::MapLeaf,
        key: place,
        keybits: 25,
        place: place + 65536 + 32768,
        radix: 10,
        id: 3,
        check: Check::Crc(0xa0b0_c0d0 + zone as u32),
        dirent: None,
    }
}

// The numbers of a node with the first two of them, from the format's tables: kind 6, method 5 and 25 key bits, the
// key, the place and radix, the id, and the check.
const NODE_NUMBERS: [(u8, u64); 9] = [
    (0, 0x0019_0506),
    (16, 0x0001_800a),
    (24, 3),
    (64, 0xa0b0_c0d0),
    (128, 0x0019_0506),
    (136, 0x0200_0000),
    (144, 0x0201_800a),
    (152, 3),
    (192, 0xa0b0_c0d1),
];

fn node_bytes() -> [u8; 1024] {
    let mut b = [0; 1024];
    for (at, number) in NODE_NUMBERS {
        put64(&mut b, at as usize, number);
    }
    b
}

// Changes of the lowest bit of bytes of the node, and the place of the reference that is refused then.
const NODE_FAULTS: [(&[u16], u64); 6] = [
    (&[0], PLACE),
    (&[132], PLACE + 128),
    (&[257], PLACE + 256),
    (&[1023], PLACE + 896),
    (&[1023, 130], PLACE + 128),
    (&[300, 700], PLACE + 256),
];

#[test]
fn nodes_by_hand(rt: HostRuntime) -> Result<(), Fail> {
    let none = Ref::empty();
    let refs = [leaf_ref(0), leaf_ref(1), none, none, none, none, none, none];
    let want = node_bytes();
    let Ok(found) = decode_node(&want, PLACE) else {
        return Err("no node")?;
    };
    assert_eq!(rt; found, refs);
    assert_eq!(rt; encode_node(&found).as_slice(), want.as_slice());
    for (changes, place) in NODE_FAULTS {
        let mut b = node_bytes();
        for at in changes.iter() {
            b[*at as usize % 1024] ^= 1;
        }
        assert_eq!(rt; decode_node(&b, PLACE), Err(MapFault::Reference(place)));
    }
    Ok(())
}
