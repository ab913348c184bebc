ghost use Rattle.std.specs.Prelude.{◌≡◌, ◌≤◌, ◌<◌, ◌+◌, ◌*◌, ◌%◌, ◌^◌, ◌++◌, ◌∷◌, [], ℕ, suc, List, All, IfOk, OnOk, length, slice_index_or};
ghost use Rattle.h2_num.specs.Places.{places};
ghost use Rattle.h2_codes.specs.declared.code.Code.{Code};
ghost use Rattle.h2_ref.specs.Ref.{IsValid, empty_ref};
ghost use Rattle.h2_freeleaf.specs.Leaf.{IsLeaf};
ghost use Rattle.h2_freeleaf.specs.InImage.{IsZoneOf, map_ref_of};
ghost use Rattle.h2_freeleaf.specs.Plan.{BeginsBlock, IsEight, IsLevel, IsPlan, blocks_of, level_places, places_of, write_of};

use crate::layout::{LEAF_SEGMENTS, MAP_BYTES, NODE_REFS};
use crate::leaf::encode_leaf;
use crate::node::encode_node;
use h2_check::crc32c;
use h2_codes::Segment;
use h2_freemap::Freemap;
use h2_geom::ZONE_BYTES;
use h2_header::{map_keybits, map_kind, map_place, top_level, turn_of, zones_under};
use h2_num::{Bytes, NoMemory};
use h2_ref::{Check, Ref};
use std::alloc::Global;

/// The base-2 logarithm of the bytes of a leaf or of a node.
const MAP_RADIX: u8 = 10;

/// What a checkpoint writes of the freemap: a copy of it whole.
#[derive(Drop)]
pub struct MapPlan {
    /// The blocks with their places on the disk, in the order of writing: the leaves by zone, and then the nodes
    /// by level and zone.
    pub writes: Vec<(u64, Bytes)>,
    /// The references of the header's map.
    pub top: [Ref; 8],
}

/// How many blocks of a level the map of a volume has, by its zones.
fn blocks_of(zones: u32, level: u32) -> u32
    requires level { level ≤ 2 }
    requires zones { zones ≤ 512 }
    ensures { result ≡ blocks_of zones level }
{
    (zones + zones_under(level) - 1) / zones_under(level)
}

/// The reference to the block of a level that begins with a zone.
fn map_ref(level: u32, zone: u32, number: u64, block: &[u8; MAP_BYTES]) -> Ref
    requires level { level ≤ 2 }
    requires zone { zone < 512 }
    requires number { 1 ≤ number }
    ensures { result ≡ map_ref_of level number zone (places block.now) }
{
    Ref {
        kind: map_kind(level),
        key: ZONE_BYTES * zone as u64,
        keybits: map_keybits(level),
        place: map_place(level, zone, turn_of(number)),
        radix: MAP_RADIX,
        id: number,
        check: Check::Crc(crc32c(block)),
        dirent: None,
    }
}

/// Adds a block to the writes, and its reference to those of its level.
fn add_block(
    alloc: Global,
    level: u32,
    zone: u32,
    number: u64,
    block: &[u8; MAP_BYTES],
    writes: &mut Vec<(u64, Bytes)>,
    refs: &mut Vec<Ref>,
) -> Result<(), NoMemory>
    requires level { level ≤ 2 }
    requires zone { BeginsBlock level zone }
    requires number { (1 ≤ number) × (number ≤ 2 ^ 62) }
    ensures writes { OnOk result (writes.new.items ≡ writes.old.items ++ write_of level number zone block.now ∷ []) }
    ensures refs { OnOk result (refs.new.items ≡ refs.old.items ++ map_ref_of level number zone (places block.now) ∷ []) }
    ensures valid { OnOk result (IsValid (map_ref_of level number zone (places block.now))) }
{
    let r = map_ref(level, zone, number, block);
    writes.push((r.place, Bytes::from_slice(alloc, block)?))?;
    refs.push(r)?;
    Ok(())
}

/// The segments of a zone of the volume.
fn segments_of(m: &Freemap, zone: u32) -> [Segment; LEAF_SEGMENTS]
    requires zone { zone < m.now.zones }
    requires few { m.now.zones ≤ 512 }
    requires count { length m.now.segments ≡ 8 * m.now.zones }
    ensures { IsZoneOf m.now.segments zone result }
{
    let mut segments = [Segment::new(false); LEAF_SEGMENTS];
    for k in 0..8u32 {
        segments[k as usize] = m.segment(8 * zone + k);
    }
    segments
}

/// The leaves of the map, whose references are returned.
fn plan_leaves(
    alloc: Global,
    m: &Freemap,
    number: u64,
    writes: &mut Vec<(u64, Bytes)>,
) -> Result<Vec<Ref>, NoMemory>
    requires number { (1 ≤ number) × (number ≤ 2 ^ 62) }
    requires none { writes.old.items ≡ [] }
    ensures level { IfOk result (λ refs. IsLevel m.now.zones number m.now.segments 0 (blocks_of m.now.zones 0) writes.new.items refs.items) }
    ensures order { OnOk result (places_of writes.new.items ≡ level_places number 0 (blocks_of m.now.zones 0)) }
{
    let mut refs = Vec::new(alloc);
    let zones = m.geometry().zones();
    for zone in 0..zones {
        let block = encode_leaf(&segments_of(m, zone));
        add_block(alloc, 0, zone, number, &block, writes, &mut refs)?;
    }
    Ok(refs)
}

/// The reference with a number, or the empty one behind the last.
fn ref_or_empty(refs: &[Ref], at: usize) -> Ref
    requires { All IsValid refs.now }
    ensures is { result ≡ slice_index_or refs.now at empty_ref }
    ensures valid { IsValid result }
{
    if at < refs.len() {
        refs[at]
    } else {
        Ref::empty()
    }
}

/// The eight references from number 8 i on, and empty ones behind the last.
fn eight_of(refs: &[Ref], i: usize) -> [Ref; NODE_REFS]
    requires valid { All IsValid refs.now }
    requires index { i < 512 }
    ensures eight { IsEight refs.now i result }
    ensures valid { All IsValid result }
{
    let mut eight = [Ref::empty(); NODE_REFS];
    for k in 0..NODE_REFS {
        eight[k] = ref_or_empty(refs, NODE_REFS * i + k);
    }
    eight
}

/// The nodes of the level above, over the references of a level, of which the references are returned.
fn plan_nodes(
    alloc: Global,
    m: &Freemap,
    number: u64,
    level: u32,
    below: &[Ref],
    writes: &mut Vec<(u64, Bytes)>,
) -> Result<Vec<Ref>, NoMemory>
    requires level { level ≤ 1 }
    requires number { (1 ≤ number) × (number ≤ 2 ^ 62) }
    requires below { IsLevel m.now.zones number m.now.segments level (blocks_of m.now.zones level) writes.old.items below.now }
    ensures level { IfOk result (λ refs. IsLevel m.now.zones number m.now.segments (suc level) (blocks_of m.now.zones (suc level)) writes.new.items refs.items) }
    ensures order { OnOk result (places_of writes.new.items ≡ places_of writes.old.items ++ level_places number (suc level) (blocks_of m.now.zones (suc level))) }
{
    let zones = m.geometry().zones();
    let mut refs = Vec::new(alloc);
    for i in 0..blocks_of(zones, level + 1) {
        let block = encode_node(&eight_of(below, i as usize));
        let zone = zones_under(level + 1) * i;
        add_block(alloc, level + 1, zone, number, &block, writes, &mut refs)?;
    }
    Ok(refs)
}

/// The copy of a freemap that the checkpoint of a number from 1 to 2^62 writes.
///
/// # Errors
/// Only for want of memory.
pub fn plan(alloc: Global, m: &Freemap, number: u64) -> Result<MapPlan, NoMemory>
    requires { (1 ≤ number) × (number ≤ 2 ^ 62) }
    ensures { IfOk result (λ p. IsPlan m.now.zones number m.now.segments p.writes.items p.top) }
{
    let zones = m.geometry().zones();
    let mut writes = Vec::new(alloc);
    let leaves = plan_leaves(alloc, m, number, &mut writes)?;
    if top_level(zones) == 0 {
        let top = eight_of(&leaves, 0);
        return Ok(MapPlan { writes, top });
    }
    let nodes = plan_nodes(alloc, m, number, 0, &leaves, &mut writes)?;
    if top_level(zones) == 1 {
        let top = eight_of(&nodes, 0);
        return Ok(MapPlan { writes, top });
    }
    let upper = plan_nodes(alloc, m, number, 1, &nodes, &mut writes)?;
    let top = eight_of(&upper, 0);
    Ok(MapPlan { writes, top })
}
