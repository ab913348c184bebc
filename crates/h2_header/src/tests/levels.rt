use crate::*;
use h2_check::crc32c;
use h2_num::{put_bytes, put32, put64};
use h2_ref::{Check, Kind, Ref, encode};
use std::alloc::{AllocError, Global};
use std::test::Fail;

const ZONE: u64 = 33_554_432;

// What a slot of the map of header 4 names, whose copy is 3, from the format's table: a leaf, or a node of
// level 1 or 2, and the zone with which it begins.
fn map_ref(level: u8, zone: u64) -> Ref {
    let (kind, keybits, behind) = match level {
        0 => (Kind::MapLeaf, 25, 0),
        1 => (Kind::MapNode, 28, 1024),
        _ => (Kind::MapNode, 31, 2048),
    };
    let first = if zone < 512 { ZONE * zone } else { 0 };
    Ref {
        kind,
        key: first,
        keybits,
        place: first + 65536 + 3 * 16384 + behind,
        radix: 10,
        id: 4,
        check: Check::Crc(7),
        dirent: None,
    }
}

// Puts reference number i of the map, if it is one.
fn put_valid(b: &mut [u8], i: usize, r: &Ref) {
    if !r.valid() {
        return;
    }
    let bytes = encode(r);
    if i < 8 && b.len() == 65536 {
        put_bytes(b, 1024 + 128 * i, &bytes);
    }
}

// The block of a header with an empty super-root and these references of the map.
fn block(alloc: Global, zones: u32, map: &[Ref; 8]) -> Result<Vec<u8>, AllocError> {
    let mut b = vec![in alloc; 0u8; 65536]?;
    if b.len() == 65536 {
        put_bytes(&mut b, 0, b"H2VOLUME");
        put32(&mut b, 8, 1);
        put32(&mut b, 12, zones);
        put64(&mut b, 16, 4);
        put64(&mut b, 24, 4);
        put64(&mut b, 32, 2);
    }
    for (i, r) in map.iter().enumerate() {
        put_valid(&mut b, i, r);
    }
    if b.len() == 65536 {
        let check = crc32c(b.split_at(65532).0);
        put32(&mut b, 65532, check);
    }
    Ok(b)
}

// How many zones, the level of the blocks that the header names, another level, the zones under each block,
// and how many blocks the header names.
const LEVELS: [(u32, u8, u8, u8, u8); 8] = [
    (4, 0, 1, 1, 4),
    (8, 0, 2, 1, 8),
    (9, 1, 0, 8, 2),
    (16, 1, 2, 8, 2),
    (64, 1, 2, 8, 8),
    (65, 2, 1, 64, 2),
    (129, 2, 0, 64, 3),
    (512, 2, 1, 64, 8),
];

// The references of a map with so many blocks of a level.
fn map_of(level: u8, under: u8, used: u8) -> [Ref; 8] {
    let mut map = [Ref::empty(); 8];
    for i in 0..8u8 {
        if i < used {
            map[i as usize] = map_ref(level, under as u64 * i as u64);
        }
    }
    map
}

// References that aren't those of their slots: to a block of another level, zone or copy, of another
// checkpoint, one too few and one too many.
fn others(level: u8, other: u8, under: u8, used: u8) -> [(u8, Ref); 6] {
    let second = map_ref(level, under as u64);
    let past = map_ref(level, under as u64 * used as u64);
    [
        (1, map_ref(other, under as u64)),
        (1, map_ref(level, 0)),
        (
            1,
            Ref {
                place: second.place ^ 16384,
                ..second
            },
        ),
        (1, Ref { id: 3, ..second }),
        (used.saturating_sub(1), Ref::empty()),
        (used, past),
    ]
}

#[test]
fn maps_of_all_levels_are_read(rt: HostRuntime) -> Result<(), Fail> {
    for (zones, level, _, under, used) in LEVELS {
        let map = map_of(level, under, used);
        let b = block(rt.alloc(), zones, &map)?;
        assert_eq!(rt; b.len(), HEADER_BYTES);
        let Ok(h) = read_from(&b, 3) else {
            return Err("no header")?;
        };
        assert_eq!(rt; h.zones, zones);
        assert_eq!(rt; h.map, map);
        let mut out = vec![in rt.alloc(); 0xffu8; 65536]?;
        assert_eq!(rt; out.len(), HEADER_BYTES);
        write_into(&h, &mut out);
        assert_eq!(rt; out.as_slice(), b.as_slice());
    }
    Ok(())
}

// What the header of a map is refused for, if one slot has another reference.
fn refused(
    alloc: Global,
    zones: u32,
    map: &[Ref; 8],
    slot: u8,
    r: Ref,
) -> Result<Option<HeadFault>, AllocError> {
    let mut wrong = *map;
    if slot >= 8 {
        return Ok(None);
    }
    wrong[slot as usize] = r;
    let b = block(alloc, zones, &wrong)?;
    if b.len() != 65536 {
        return Ok(None);
    }
    Ok(read_from(&b, 3).err())
}

#[test]
fn other_references_of_a_map_are_refused(rt: HostRuntime) -> Result<(), Fail> {
    for (zones, level, other, under, used) in LEVELS {
        let map = map_of(level, under, used);
        for (slot, r) in others(level, other, under, used) {
            let expected = if slot < 8 {
                Some(HeadFault::Field(1024 + 128 * slot as u32))
            } else {
                None
            };
            let fault = refused(rt.alloc(), zones, &map, slot, r)?;
            assert_eq!(rt; fault, expected, "slot {slot} of {zones}");
        }
    }
    Ok(())
}

#[test]
fn the_number_of_zones_has_bounds(rt: HostRuntime) -> Result<(), Fail> {
    let map = [Ref::empty(); 8];
    for (zones, place) in [
        (0u32, 12u32),
        (3, 12),
        (4, 1024),
        (512, 1024),
        (513, 12),
        (u32::MAX, 12),
    ] {
        let b = block(rt.alloc(), zones, &map)?;
        assert_eq!(rt; b.len(), HEADER_BYTES);
        assert_eq!(rt;
            read_from(&b, 3),
            Err(HeadFault::Field(place)),
            "{zones} zones"
        );
    }
    Ok(())
}
