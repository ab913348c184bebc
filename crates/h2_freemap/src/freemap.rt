ghost use Rattle.std.specs.Prelude.{◌≡◌, ◌<◌, length, slice_get, Some, IfOk};
ghost use Rattle.h2_geom.specs.Geometry.{segments_of};
ghost use Rattle.h2_freemap.specs.Space.{chunk_count, code_of};
ghost use Rattle.h2_freemap.specs.Free.{free_of};
ghost use Rattle.h2_freemap.specs.Consistent.{IsConsistent};
ghost use Rattle.h2_freemap.specs.Made.{IsFresh, IsOpened};

mod pinning;
mod sweeping;
mod taking;

use crate::making::fresh_segments;
use crate::search::count_free;
use h2_codes::{Code, Cursor, Segment};
use h2_geom::{Geometry, SEGMENT_CHUNKS};
use h2_num::{Block, NoMemory};
use std::alloc::Global;
use std::marker::Model;

/// The space of a volume: the codes of its chunks, where the next blocks go, and which blocks are pinned.
#[derive(Drop)]
pub struct Freemap {
    geometry: Geometry,
    segments: Vec<Segment>,
    // How many chunks are free.
    free: u64,
    small: Option<Cursor>,
    middle: Option<Cursor>,
    pins: Vec<Block>,
}

impl Model for Freemap {
    ghost use Rattle.std.specs.Prelude.{◌≡◌, ◌-◌, vec_len, vec_capacity};
    ghost use Rattle.h2_freemap.specs.Space.{Space};
    ghost use Rattle.h2_freemap.specs.Free.{free_of};
    ghost use Rattle.h2_freemap.specs.Consistent.{IsConsistent};

    ghost Value = { Space };

    ghost view = { λ m. record { zones = m.geometry; segments = m.segments.items; small = m.small; middle = m.middle; pins = m.pins.items; spare = vec_capacity m.pins - vec_len m.pins } };

    ghost invariant = { λ m. let x : Space = record { zones = m.geometry; segments = m.segments.items; small = m.small; middle = m.middle; pins = m.pins.items; spare = vec_capacity m.pins - vec_len m.pins } in IsConsistent x × (m.free ≡ free_of x) };
}

impl Freemap {
    /// The freemap of a new volume: the first segment of each zone is reserved, all other chunks are free,
    /// and there is no cursor and no pin.
    pub fn fresh(alloc: Global, geometry: Geometry) -> Result<Freemap, NoMemory>
        ensures { IfOk result (λ map. IsFresh geometry map) }
    {
        let segments = fresh_segments(alloc, geometry.segments())?;
        Freemap::from_segments(alloc, geometry, segments)
    }

    /// The freemap with these segments, as many as the volume has; with no cursor and no pin.
    pub fn from_segments(
        alloc: Global,
        geometry: Geometry,
        segments: Vec<Segment>,
    ) -> Result<Freemap, NoMemory>
        requires count { length segments.items ≡ segments_of geometry }
        ensures { IfOk result (λ map. IsOpened geometry segments.items map) }
    {
        // A geometry is used, so that the proof learns what holds of each: 4 to 512 zones.
        let _ = geometry.zones();
        let free = count_free(&segments);
        Ok(Freemap {
            geometry,
            segments,
            free,
            small: None,
            middle: None,
            pins: Vec::new(alloc),
        })
    }

    /// The size of the volume.
    pub fn geometry(&self) -> Geometry
        ensures value { result ≡ self.now.zones }
        ensures consistent { IsConsistent self.now }
    {
        self.geometry
    }

    /// How many chunks are free.
    pub fn free(&self) -> u64
        ensures value { result ≡ free_of self.now }
        ensures consistent { IsConsistent self.now }
    {
        self.free
    }

    /// The code of a chunk of the volume.
    pub fn code(&self, chunk: u32) -> Code
        requires in_volume { chunk < chunk_count self.now }
        ensures { result ≡ code_of self.now chunk }
    {
        self.segments[(chunk / SEGMENT_CHUNKS) as usize].get((chunk % SEGMENT_CHUNKS) as u8)
    }

    /// A copy of a segment of the volume.
    pub fn segment(&self, s: u32) -> Segment
        requires in_volume { s < segments_of self.now.zones }
        ensures { slice_get self.now.segments s ≡ Some result }
    {
        self.segments[s as usize]
    }
}
