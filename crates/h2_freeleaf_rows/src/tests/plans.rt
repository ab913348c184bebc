use super::codecs::code_of;
use h2_codes::Code;
use h2_freeleaf::{MAP_BYTES, MapPlan, decode_leaf, plan};
use h2_freemap::Freemap;
use h2_geom::Geometry;
use h2_ref::Ref;
use std::test::Fail;

// Plans by hand: the zones, the number of the checkpoint, how many writes there are, the number of one of them and
// its place on the disk.
const WRITES: [(u32, u64, usize, usize, u64); 8] = [
    // zone 3, copy 0: 3 * 33554432 + 65536
    (4, 1, 4, 3, 100_728_832),
    // zone 3, copy 3: 49152 more
    (4, 8, 4, 3, 100_777_984),
    // 9 zones have 9 leaves and two nodes; zone 8, copy 1: 8 * 33554432 + 65536 + 16384
    (9, 2, 11, 8, 268_517_376),
    // the node of zone 0: 65536 + 16384 + 1024, and that of zone 8
    (9, 2, 11, 9, 82_944),
    (9, 2, 11, 10, 268_518_400),
    // 65 zones have 65 leaves, 9 nodes of level 1 and two of level 2: 65536 + 49152 + 2048, and 64 zones on
    (65, 4, 76, 74, 116_736),
    (65, 4, 76, 75, 2_147_600_384),
    // 512 zones have 512 leaves, 64 nodes and 8 more; the last of the 64 is that of zone 504, 65536 + 1024 behind it
    (512, 1, 584, 575, 16_911_500_288),
];

fn place_of(plan: &MapPlan, at: usize) -> Option<u64> {
    if at < plan.writes.len() {
        Some(plan.writes[at].0)
    } else {
        None
    }
}

#[test]
fn plans_by_hand(rt: HostRuntime) -> Result<(), Fail> {
    for (zones, number, count, at, place) in WRITES {
        let geometry = Geometry::of(zones).ok_or("zones")?;
        let map = Freemap::fresh(rt.alloc(), geometry).ok().ok_or("memory")?;
        if number >= 1 && number <= 1 << 62 {
            let plan = plan(rt.alloc(), &map, number).ok().ok_or("memory")?;
            assert_eq!(rt; plan.writes.len(), count, "zones {zones}");
            assert_eq!(rt; place_of(&plan, at), Some(place), "zones {zones}");
        }
    }
    Ok(())
}

#[test]
fn the_top_and_a_leaf_of_a_plan(rt: HostRuntime) -> Result<(), Fail> {
    let geometry = Geometry::of(9).ok_or("zones")?;
    let map = Freemap::fresh(rt.alloc(), geometry).ok().ok_or("memory")?;
    let plan = plan(rt.alloc(), &map, 2).ok().ok_or("memory")?;
    assert_eq!(rt; plan.top[1].key, 268_435_456);
    assert_eq!(rt; plan.top[1].keybits, 28);
    assert_eq!(rt; plan.top[1].place, 268_518_400);
    assert_eq!(rt; plan.top[1].id, 2);
    assert_eq!(rt; plan.top[2], Ref::empty());
    let Some((place, block)) = plan.writes.first() else {
        return Err("no writes")?;
    };
    let Some(bytes) = block.as_slice().first_chunk::<MAP_BYTES>() else {
        return Err("no block")?;
    };
    assert_eq!(rt; *place, 81_920);
    let Ok(leaf) = decode_leaf(bytes, 81_920) else {
        return Err("no leaf")?;
    };
    assert_eq!(rt; code_of(&leaf, 0, 0), Code::Reserved);
    assert_eq!(rt; code_of(&leaf, 7, 255), Code::Free);
    Ok(())
}
