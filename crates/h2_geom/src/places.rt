ghost use Rattle.std.specs.Prelude.{◌≡◌, ◌<◌, ◌≤◌, ◌+◌, ◌*◌};
ghost use Rattle.h2_geom.specs.Places.{header_place, copy_place, leaf_place, node_place};

use crate::geometry::{CHUNK_BYTES, ZONE_BYTES};

/// How many slots for headers there are.
pub const SLOTS: u32 = 4;

/// How many copies of the freemap there are.
pub const COPIES: u32 = 4;

/// The bytes of a header's slot.
pub const HEADER_BYTES: u64 = 65536;

/// The bytes of a leaf or node of the freemap.
pub const MAP_BLOCK_BYTES: u64 = 1024;

/// Places of a disk are below this.
pub const DISK_BYTES: u64 = 1 << 34;

/// The place of the first byte of a header's slot.
pub fn header_place(slot: u32) -> u64
    requires slot { slot < 4 }
    ensures { result ≡ header_place slot }
{
    ZONE_BYTES * slot as u64
}

// The place of a copy of the freemap in a zone.
fn copy_place(zone: u32, copy: u32) -> u64
    requires zone { zone < 512 }
    requires copy { copy < 4 }
    ensures { result ≡ copy_place zone copy }
{
    ZONE_BYTES * zone as u64 + HEADER_BYTES + CHUNK_BYTES * copy as u64
}

/// The place of the leaf of a zone in a copy of the freemap.
pub fn leaf_place(zone: u32, copy: u32) -> u64
    requires zone { zone < 512 }
    requires copy { copy < 4 }
    ensures { result ≡ leaf_place zone copy }
{
    copy_place(zone, copy)
}

/// The place of the node of level 1 or 2 that begins with a zone, in a copy of the freemap.
pub fn node_place(level: u32, zone: u32, copy: u32) -> u64
    requires level { (1 ≤ level) × (level ≤ 2) }
    requires zone { zone < 512 }
    requires copy { copy < 4 }
    ensures { result ≡ node_place level zone copy }
{
    copy_place(zone, copy) + MAP_BLOCK_BYTES * level as u64
}
