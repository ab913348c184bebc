ghost use Rattle.std.specs.Prelude.{IfOk};
ghost use Rattle.h2_freemap.specs.Made.{AreFresh};

use h2_codes::Segment;
use h2_geom::ZONE_SEGMENTS;
use h2_num::NoMemory;
use std::alloc::Global;

/// The segments of a new volume: the first of each zone is reserved, and the others are free.
pub(crate) fn fresh_segments(alloc: Global, count: u32) -> Result<Vec<Segment>, NoMemory>
    ensures { IfOk result (λ segments. AreFresh count segments.items) }
{
    let mut segments = Vec::with_capacity(alloc, count as usize)?;
    for s in 0..count {
        segments.push(Segment::new(s % ZONE_SEGMENTS == 0))?;
    }
    Ok(segments)
}
