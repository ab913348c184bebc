use super::*;
use h2_codes::{Code, Seen, Segment};
use h2_geom::Geometry;
use h2_num::Block;
use std::alloc::Global;
use std::test::Fail;

mod plain;

// Takes a block, where its need is at most what is free.
fn take(map: &mut Freemap, size: Size) -> Option<u64> {
    let need = match size {
        Size::Small => map.need(1, 0, 0),
        Size::Middle => map.need(0, 1, 0),
        Size::Whole => map.need(0, 0, 1),
    };
    if need > map.free() {
        return None;
    }
    Some(map.take(size).place)
}

// Applies a pass to a segment of the volume.
fn apply(map: &mut Freemap, s: u32, seen: &Seen) -> Option<(u32, u32)> {
    if s >= map.geometry().segments() {
        return None;
    }
    Some(map.apply(s, seen))
}

// The code of a chunk of the volume.
fn code(map: &Freemap, chunk: u32) -> Option<Code> {
    if chunk >= map.geometry().chunks() {
        return None;
    }
    Some(map.code(chunk))
}

// The freemap of a new volume.
fn fresh(alloc: Global, zones: u32) -> Option<Freemap> {
    Freemap::fresh(alloc, Geometry::of(zones)?).ok()
}

// A freemap with the segments of another.
fn reopen(alloc: Global, map: &Freemap) -> Option<Freemap> {
    let geometry = map.geometry();
    let mut segments = Vec::new(alloc);
    for s in 0..geometry.segments() {
        segments.push(map.segment(s)).ok()?;
    }
    if segments.len() != geometry.segments() as usize {
        return None;
    }
    Freemap::from_segments(alloc, geometry, segments).ok()
}

// Pins a block of the volume, where it isn't pinned and there is memory.
fn pin(map: &mut Freemap, block: Block) -> Option<()> {
    if map.pins().contains(&block) || block.place >= 33_554_432 * map.geometry().zones() as u64 {
        return None;
    }
    map.reserve_pins(1).ok()?;
    map.pin(block);
    Some(())
}

// Ends the pin of a block, where it is pinned.
fn unpin(map: &mut Freemap, block: Block) -> Option<()> {
    if !map.pins().contains(&block) {
        return None;
    }
    map.unpin(block);
    Some(())
}

#[test]
fn a_fresh_map_of_four_zones(rt: HostRuntime) -> Result<(), Fail> {
    let alloc = rt.alloc();
    let mut map = fresh(alloc, 4).ok_or("memory")?;
    let unseen = Seen::new();
    assert_eq!(rt; (map.free(), map.need(1, 1, 1)), (7168, 3));
    assert_eq!(rt; take(&mut map, Size::Small), Some(4_194_304));
    assert_eq!(rt; take(&mut map, Size::Middle), Some(4_210_688));
    assert_eq!(rt; take(&mut map, Size::Whole), Some(4_227_072));
    assert_eq!(rt; (map.need(15, 3, 0), map.need(16, 4, 1)), (0, 3));
    assert_eq!(rt; apply(&mut map, 1, &unseen), Some((3, 0)));
    assert_eq!(rt; take(&mut map, Size::Small), Some(4_195_328));
    assert_eq!(rt; code(&map, 256), Some(Code::Used));
    assert_eq!(rt; apply(&mut map, 1, &unseen), Some((1, 2)));
    assert_eq!(rt; take(&mut map, Size::Middle), Some(4_210_688));
    assert_eq!(rt; code(&map, 256), Some(Code::Staged));
    assert_eq!(rt; code(&map, 257), Some(Code::Used));
    assert_eq!(rt; code(&map, 258), Some(Code::Free));
    let small = Block {
        place: 4_194_304,
        radix: 10,
    };
    let middle = Block {
        place: 4_210_688,
        radix: 12,
    };
    pin(&mut map, small).ok_or("memory")?;
    pin(&mut map, middle).ok_or("memory")?;
    assert_eq!(rt; map.pins(), [small, middle].as_slice());
    unpin(&mut map, small).ok_or("no such pin")?;
    assert_eq!(rt; map.pins(), [middle].as_slice());
    let map = reopen(alloc, &map).ok_or("memory")?;
    assert_eq!(rt; map.free(), 7166);
    Ok(())
}
