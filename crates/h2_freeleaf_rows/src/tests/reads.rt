ghost use Rattle.std.specs.Prelude.{◌≤◌, ◌+◌, ◌^◌, IfOk};
ghost use Rattle.h2_header.specs.Header.{IsHeader};

use h2_check::crc32c;
use h2_codes::Code;
use h2_disk::{Disk, MemDisk};
use h2_freeleaf::{MAP_BYTES, MapFault, MapRead, NODE_REFS, plan, read_map};
use h2_freemap::{Freemap, Size};
use h2_geom::Geometry;
use h2_header::{HEADER_BYTES, Header, read_from};
use h2_num::{put_bytes, put32, put64};
use h2_ref::{Check, Ref, encode};
use std::alloc::Global;
use std::test::Fail;

// The last place of a block of 1 KiB on the disk.
const LAST_BLOCK: u64 = 17_179_868_160;

// Puts a reference of the map, if it is one.
fn put_valid(b: &mut [u8], i: usize, r: &Ref) {
    if !r.valid() {
        return;
    }
    let bytes = encode(r);
    if i < 8 && b.len() == HEADER_BYTES {
        put_bytes(b, 1024 + 128 * i, &bytes);
    }
}

// The header of a checkpoint with an empty super-root and this map, read from its block.
fn header(alloc: Global, zones: u32, number: u64, map: &[Ref; 8]) -> Result<Header, Fail>
    ensures { IfOk result IsHeader }
{
    let mut b = vec![in alloc; 0u8; HEADER_BYTES]?;
    for (i, r) in map.iter().enumerate() {
        put_valid(&mut b, i, r);
    }
    if b.len() != HEADER_BYTES {
        return Err("no block")?;
    }
    put_bytes(&mut b, 0, b"H2VOLUME\x01");
    put32(&mut b, 12, zones);
    put64(&mut b, 16, number);
    put64(&mut b, 24, number);
    put64(&mut b, 32, 2);
    let check = crc32c(b.split_at(HEADER_BYTES - 4).0);
    put32(&mut b, HEADER_BYTES - 4, check);
    let slot = number.saturating_sub(1) % 4;
    match read_from(&b, slot as u32) {
        Ok(h) => Ok(h),
        Err(_) => Err("no header")?,
    }
}

// The freemap of a volume as `format` leaves it: two blocks of 1 KiB are taken.
fn formatted(alloc: Global, zones: u32) -> Result<Freemap, Fail> {
    let geometry = Geometry::of(zones).ok_or("zones")?;
    let mut map = Freemap::fresh(alloc, geometry)?;
    for _ in 0..2u32 {
        if map.need(1, 0, 0) <= map.free() {
            map.take(Size::Small);
        }
    }
    Ok(map)
}

// A disk with the copy of that map which the checkpoint of a number writes, and the references of the header. The
// reads with these numbers fail.
fn written(
    alloc: Global,
    zones: u32,
    number: u64,
    fail_reads: Vec<u64>,
) -> Result<(MemDisk, [Ref; 8]), Fail>
    requires { (1 ≤ number) × (number ≤ 2 ^ 62) }
{
    let map = formatted(alloc, zones)?;
    let plan = plan(alloc, &map, number)?;
    let mut disk = MemDisk::new(alloc, Vec::new(alloc), fail_reads)?;
    for w in &plan.writes {
        let bytes = w.1.as_slice();
        if w.0 <= LAST_BLOCK && bytes.len() == MAP_BYTES {
            disk.write(w.0, bytes)?;
        }
    }
    Ok((disk, plan.top))
}

// Zones, the number of the checkpoint, and how many chunks are free: 1792 a zone, but for the one that format takes.
const MAPS: [(u32, u64, u64); 6] = [
    (4, 1, 7167),
    (8, 3, 14335),
    (9, 1, 16127),
    (9, 6, 16127),
    (65, 4, 116479),
    (512, 1, 917503),
];

// Chunks of such a map, and their codes.
const CODES: [(u32, Code); 6] = [
    (0, Code::Reserved),
    (255, Code::Reserved),
    (256, Code::Used),
    (257, Code::Free),
    (6144, Code::Reserved),
    (8191, Code::Free),
];

#[test]
fn what_was_planned_is_read(rt: HostRuntime) -> Result<(), Fail> {
    for (zones, number, free) in MAPS {
        if number >= 1 && number <= 1 << 62 {
            let (mut disk, top) = written(rt.alloc(), zones, number, Vec::new(rt.alloc()))?;
            let h = header(rt.alloc(), zones, number, &top)?;
            let map = read_map(rt.alloc(), &mut disk, &h).ok().ok_or("no map")?;
            assert_eq!(rt; map.geometry().zones(), zones);
            assert_eq!(rt; map.free(), free, "zones {zones}");
            for (chunk, code) in CODES {
                if chunk < map.geometry().chunks() {
                    assert_eq!(rt; map.code(chunk), code, "chunk {chunk}");
                }
            }
            // there is no cursor: a block of 1 KiB needs a chunk
            assert_eq!(rt; map.need(1, 0, 0), 1);
            assert_eq!(rt; map.pins().len(), 0);
        }
    }
    Ok(())
}

// Why the map of a header isn't read.
fn refusal(
    alloc: Global,
    disk: &mut MemDisk,
    zones: u32,
    number: u64,
    top: &[Ref; 8],
) -> Result<Option<MapRead>, Fail> {
    let h = header(alloc, zones, number, top)?;
    Ok(read_map(alloc, disk, &h).err())
}

// Changes bits of a byte of the block at a place. The new check of the block is returned.
fn change(disk: &mut MemDisk, place: u64, at: usize, bits: u8) -> Result<u32, Fail>
    requires { place + 1024 ≤ 2 ^ 34 }
{
    let mut block = [0; MAP_BYTES];
    disk.read(place, &mut block)?;
    block[at % MAP_BYTES] ^= bits;
    disk.write(place, &block)?;
    Ok(crc32c(&block))
}

// Gives the reference with a number in the node at a place another check. The new check of the node is returned.
fn put_check(disk: &mut MemDisk, place: u64, i: usize, check: u32) -> Result<u32, Fail>
    requires { place + 1024 ≤ 2 ^ 34 }
{
    let mut block = [0; MAP_BYTES];
    disk.read(place, &mut block)?;
    put32(&mut block, 128 * (i % NODE_REFS) + 64, check);
    disk.write(place, &block)?;
    Ok(crc32c(&block))
}

// The check that a reference to a block of the map has.
fn check_of(r: &Ref) -> u32 {
    match r.check {
        Check::Crc(check) => check,
        _ => 0,
    }
}

// The leaves of zones 1 and 2 in copy 0.
const LEAF_1: u64 = 33_619_968;

const LEAF_2: u64 = 67_174_400;

// Bits of a byte that are changed in the leaf of zone 2, and what is refused if its check is made anew.
const LEAF_FAULTS: [(usize, u8, MapFault); 4] = [
    (5, 1, MapFault::Shape(LEAF_2 + 64)),
    (192, 1, MapFault::Shape(LEAF_2 + 192)),
    (228, 128, MapFault::Padding(LEAF_2 + 228)),
    (1023, 1, MapFault::Padding(LEAF_2 + 1023)),
];

#[test]
fn bad_leaves_are_named(rt: HostRuntime) -> Result<(), Fail> {
    for (at, bits, fault) in LEAF_FAULTS {
        let (mut disk, mut top) = written(rt.alloc(), 4, 1, Vec::new(rt.alloc()))?;
        let want = check_of(&top[2]);
        let got = change(&mut disk, LEAF_2, at, bits)?;
        let bad = MapFault::BadCheck {
            place: LEAF_2,
            want,
            got,
        };
        assert_eq!(rt;
            refusal(rt.alloc(), &mut disk, 4, 1, &top)?,
            Some(MapRead::Fault(bad))
        );
        top[2].check = Check::Crc(got);
        assert_eq!(rt;
            refusal(rt.alloc(), &mut disk, 4, 1, &top)?,
            Some(MapRead::Fault(fault))
        );
        // a bad leaf of an earlier zone comes first
        let want = check_of(&top[1]);
        let got = change(&mut disk, LEAF_1, 5, 1)?;
        let bad = MapFault::BadCheck {
            place: LEAF_1,
            want,
            got,
        };
        assert_eq!(rt;
            refusal(rt.alloc(), &mut disk, 4, 1, &top)?,
            Some(MapRead::Fault(bad))
        );
    }
    Ok(())
}

// The nodes of level 1 of zones 0 and 8 in copy 1, and the leaves of zones 3 and 8.
const NODE_0: u64 = 82_944;

const NODE_8: u64 = 268_518_400;

const LEAF_3: u64 = 100_745_216;

const LEAF_8: u64 = 268_517_376;

// Bits of a byte that are changed in the node of zone 8 of 9 zones, and the number of the reference that is refused.
// The first has the key 0x1000_0000 and the place 0x1001_4000; the others are empty.
const NODE_FAULTS: [(usize, u8, u64); 8] = [
    // another kind, and other keybits than any kind has
    (0, 3, 0),
    (2, 1, 0),
    // the key of zone 16
    (11, 0x30, 0),
    // the place in copy 0
    (17, 0x40, 0),
    // the id 1
    (24, 3, 0),
    // a byte that must be zero
    (100, 1, 0),
    // references behind the last zone
    (128, 6, 1),
    (1023, 1, 7),
];

#[test]
fn bad_nodes_are_named(rt: HostRuntime) -> Result<(), Fail> {
    for (at, bits, slot) in NODE_FAULTS {
        let (mut disk, mut top) = written(rt.alloc(), 9, 2, Vec::new(rt.alloc()))?;
        let want = check_of(&top[1]);
        let got = change(&mut disk, NODE_8, at, bits)?;
        let bad = MapFault::BadCheck {
            place: NODE_8,
            want,
            got,
        };
        assert_eq!(rt;
            refusal(rt.alloc(), &mut disk, 9, 2, &top)?,
            Some(MapRead::Fault(bad))
        );
        top[1].check = Check::Crc(got);
        let fault = MapFault::Reference(NODE_8 + 128 * (slot % 8));
        assert_eq!(rt;
            refusal(rt.alloc(), &mut disk, 9, 2, &top)?,
            Some(MapRead::Fault(fault))
        );
    }
    Ok(())
}

#[test]
fn the_first_bad_block_is_named(rt: HostRuntime) -> Result<(), Fail> {
    let (mut disk, mut top) = written(rt.alloc(), 9, 2, Vec::new(rt.alloc()))?;
    // from the last block to the first one, each is made bad: the one that was made bad last is named
    for place in [LEAF_8, NODE_8, LEAF_3, NODE_0] {
        if place <= LAST_BLOCK {
            let got = change(&mut disk, place, 5, 1)?;
            match refusal(rt.alloc(), &mut disk, 9, 2, &top)? {
                Some(
                    MapRead::Fault(
                        MapFault::BadCheck {
                            place: at,
                            got: was,
                            ..
                        },
                    ),
                ) => {
                    assert_eq!(rt; at, place);
                    assert_eq!(rt; was, got);
                }
                _ => return Err("another refusal")?,
            }
        }
    }
    // all is well again but in the leaf of zone 8, whose check and the node's are made anew
    change(&mut disk, NODE_0, 5, 1)?;
    change(&mut disk, LEAF_3, 5, 1)?;
    change(&mut disk, NODE_8, 5, 1)?;
    let leaf = change(&mut disk, LEAF_8, 0, 0)?;
    top[1].check = Check::Crc(put_check(&mut disk, NODE_8, 0, leaf)?);
    let fault = MapFault::Shape(LEAF_8 + 64);
    assert_eq!(rt;
        refusal(rt.alloc(), &mut disk, 9, 2, &top)?,
        Some(MapRead::Fault(fault))
    );
    Ok(())
}

#[test]
fn the_least_place_comes_first_in_a_node(rt: HostRuntime) -> Result<(), Fail> {
    let (mut disk, mut top) = written(rt.alloc(), 9, 2, Vec::new(rt.alloc()))?;
    // the first reference has another place, and the sixth isn't one
    change(&mut disk, NODE_8, 17, 0x40)?;
    top[1].check = Check::Crc(change(&mut disk, NODE_8, 640, 1)?);
    let fault = MapFault::Reference(NODE_8);
    assert_eq!(rt;
        refusal(rt.alloc(), &mut disk, 9, 2, &top)?,
        Some(MapRead::Fault(fault))
    );
    // in an earlier node the second isn't one, by its key bits, and the sixth has another place
    change(&mut disk, NODE_0, 130, 1)?;
    top[0].check = Check::Crc(change(&mut disk, NODE_0, 657, 0x40)?);
    let fault = MapFault::Reference(NODE_0 + 128);
    assert_eq!(rt;
        refusal(rt.alloc(), &mut disk, 9, 2, &top)?,
        Some(MapRead::Fault(fault))
    );
    Ok(())
}

#[test]
fn nodes_of_level_2_are_judged(rt: HostRuntime) -> Result<(), Fail> {
    // the node of level 2 of zone 64 of 65 zones, in copy 0: its first reference is to a node, and the others are empty
    let node = 2_147_551_232;
    let (mut disk, mut top) = written(rt.alloc(), 65, 1, Vec::new(rt.alloc()))?;
    top[1].check = Check::Crc(change(&mut disk, node, 24, 3)?);
    let fault = MapFault::Reference(node);
    assert_eq!(rt;
        refusal(rt.alloc(), &mut disk, 65, 1, &top)?,
        Some(MapRead::Fault(fault))
    );
    Ok(())
}

#[test]
fn failing_reads_are_told(rt: HostRuntime) -> Result<(), Fail> {
    // the reads of 9 zones: a node, 8 leaves, a node, a leaf
    for read in [0, 5, 9, 10] {
        let (mut disk, top) = written(rt.alloc(), 9, 2, vec![in rt.alloc(); read]?)?;
        assert_eq!(rt;
            refusal(rt.alloc(), &mut disk, 9, 2, &top)?,
            Some(MapRead::Disk)
        );
        assert_eq!(rt; refusal(rt.alloc(), &mut disk, 9, 2, &top)?, None);
    }
    // behind the bad leaf of zone 2, which is read and changed first, nothing is read
    for (read, fails) in [(3, true), (4, false)] {
        let (mut disk, top) = written(rt.alloc(), 4, 1, vec![in rt.alloc(); read]?)?;
        change(&mut disk, LEAF_2, 5, 1)?;
        let found = refusal(rt.alloc(), &mut disk, 4, 1, &top)?;
        assert_eq!(rt; found == Some(MapRead::Disk), fails);
    }
    Ok(())
}

#[test]
fn a_map_that_was_never_written(rt: HostRuntime) -> Result<(), Fail> {
    let (_, top) = written(rt.alloc(), 4, 4, Vec::new(rt.alloc()))?;
    let mut disk = MemDisk::new(rt.alloc(), Vec::new(rt.alloc()), Vec::new(rt.alloc()))?;
    let bad = MapFault::BadCheck {
        place: 114_688,
        want: check_of(&top[0]),
        got: crc32c(&[0; MAP_BYTES]),
    };
    assert_eq!(rt;
        refusal(rt.alloc(), &mut disk, 4, 4, &top)?,
        Some(MapRead::Fault(bad))
    );
    Ok(())
}
