ghost use Rattle.std.specs.Prelude.{◌≡◌, ◌≤◌, ◌<◌, ◌↔◌, ◌+◌, ◌*◌, IsTrue};
ghost use Rattle.h2_header.specs.Map.{IsMapEntry, IsMapRef, IsMapSlot, map_kind, top_level, zones_under};
ghost use Rattle.h2_geom.specs.Places.{node_place, turn_of};

use h2_geom::{SLOTS, ZONE_BYTES, leaf_place, node_place};
use h2_ref::{Kind, Ref};

/// Up to so many zones the header names the leaves of the freemap.
const LEAF_ZONES: u32 = 8;

/// Up to so many zones it names nodes of level 1.
const NODE_ZONES: u32 = 64;

/// The base-2 logarithm of the bytes of a zone, which are the keys of a leaf.
const ZONE_BITS: u8 = 25;

/// The base-2 logarithm of the references of a node.
const NODE_BITS: u8 = 3;

/// The turn of a checkpoint, of which there are four: the slot of its header, and its copy of the freemap. The
/// number isn't 0.
pub fn turn_of(number: u64) -> u32
    requires { 1 ≤ number }
    ensures turn { result ≡ turn_of number }
    ensures few { result < 4 }
{
    ((number - 1) % SLOTS as u64) as u32
}

/// The level of the blocks of the freemap that a header names, by the number of zones: 0 for leaves up to 8
/// zones, 1 up to 64, else 2.
pub fn top_level(zones: u32) -> u32
    ensures level { result ≡ top_level zones }
    ensures most { result ≤ 2 }
{
    if zones <= LEAF_ZONES {
        0
    } else if zones <= NODE_ZONES {
        1
    } else {
        2
    }
}

/// How many zones a block of a level of the freemap stands for. There are the levels 0, 1 and 2.
pub fn zones_under(level: u32) -> u32
    requires { level ≤ 2 }
    ensures zones { result ≡ zones_under level }
    ensures some { 1 ≤ result }
    ensures most { result ≤ 64 }
{
    match level {
        0 => 1,
        1 => 8,
        _ => 64,
    }
}

/// The kind of the blocks of a level of the freemap: leaves at 0, else nodes.
pub fn map_kind(level: u32) -> Kind
    ensures { result ≡ map_kind level }
{
    if level == 0 {
        Kind::MapLeaf
    } else {
        Kind::MapNode
    }
}

/// The keybits of the references to the blocks of a level of the freemap.
pub fn map_keybits(level: u32) -> u8
    requires { level ≤ 2 }
    ensures { result ≡ 25 + 3 * level }
{
    ZONE_BITS + NODE_BITS * level as u8
}

/// The place of the block of a level that begins with a zone, in a copy of the freemap.
pub fn map_place(level: u32, zone: u32, copy: u32) -> u64
    requires level { level ≤ 2 }
    requires zone { zone < 512 }
    requires copy { copy < 4 }
    ensures { result ≡ node_place level zone copy }
{
    if level == 0 {
        leaf_place(zone, copy)
    } else {
        node_place(level, zone, copy)
    }
}

/// Whether it names the block of a level that begins with a zone, in the map of a checkpoint.
fn is_map_ref(level: u32, number: u64, zone: u32, r: &Ref) -> bool
    requires level { level ≤ 2 }
    requires number { 1 ≤ number }
    requires zone { zone < 512 }
    ensures { IsTrue result ↔ IsMapRef level number zone r.now }
{
    r.kind == map_kind(level)
        && r.key == ZONE_BYTES * zone as u64
        && r.keybits == map_keybits(level)
        && r.place == map_place(level, zone, turn_of(number))
        && r.id == number
}

/// Whether the reference is what stands for a level's zones from one on, in the map of a checkpoint: it names
/// their block, or it is empty where the zone isn't in the volume.
pub fn is_map_entry(level: u32, zones: u32, number: u64, zone: u32, r: &Ref) -> bool
    requires level { level ≤ 2 }
    requires number { 1 ≤ number }
    requires zone { zone < 512 }
    ensures { IsTrue result ↔ IsMapEntry level zones number zone r.now }
{
    if zone < zones {
        is_map_ref(level, number, zone, r)
    } else {
        *r == Ref::empty()
    }
}

/// Whether the reference is what a slot of the header's map holds.
pub(crate) fn is_map_slot(zones: u32, number: u64, slot: u32, r: &Ref) -> bool
    requires number { 1 ≤ number }
    requires slot { slot < 8 }
    ensures { IsTrue result ↔ IsMapSlot zones number slot r.now }
{
    let level = top_level(zones);
    is_map_entry(level, zones, number, zones_under(level) * slot, r)
}
