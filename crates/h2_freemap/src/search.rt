ghost use Rattle.std.specs.Prelude.{◌≡◌, ◌≢◌, ◌<◌, ◌≤◌, ◌*◌, ◌+◌, ℕ, length, All, Contains, MatchOption, slice_index_or};
ghost use Rattle.h2_codes.specs.Codes.{IsSegment, tally};
ghost use Rattle.h2_codes.specs.declared.code.Code.TheVariants.{Free};
ghost use Rattle.h2_freemap.specs.Space.{code_in};
ghost use Rattle.h2_codes.specs.Free.{NoneFreeBelow, IsLowestFree, free_below};

use h2_codes::{Code, Segment};
use h2_geom::SEGMENT_CHUNKS;
use h2_num::Block;

/// The lowest free chunk of the segments, or None where no chunk is free. A segment without a free chunk
/// is passed over by its count.
pub(crate) fn lowest_free(segments: &[Segment]) -> Option<u32>
    requires { length segments.now ≤ 4096 }
    ensures { MatchOption result (NoneFreeBelow (code_in segments.now) (256 * length segments.now)) (IsLowestFree (code_in segments.now) (256 * length segments.now)) }
{
    for (s, segment) in segments.iter().enumerate() {
        if segment.free() > 0 {
            if let Some(c) = segment.next_free(0) {
                return Some(SEGMENT_CHUNKS * s as u32 + c as u32);
            }
        }
    }
    None
}

/// How many chunks of the segments are free.
pub(crate) fn count_free(segments: &[Segment]) -> u64
    requires { length segments.now ≤ 4096 }
    ensures count { result ≡ free_below (code_in segments.now) (256 * length segments.now) }
    ensures segments { All IsSegment segments.now }
{
    let mut free = 0u64;
    for segment in segments {
        free += segment.free() as u64;
    }
    free
}

/// 1 where the code is that of a free chunk, else 0.
pub(crate) fn one_if_free(code: Code) -> u64
    ensures { result ≡ tally Free code }
{
    match code {
        Code::Free => 1,
        Code::Reserved | Code::Staged | Code::Used => 0,
    }
}

/// The index of a block, or None where it isn't among them.
pub(crate) fn find_block(blocks: &[Block], block: Block) -> Option<usize>
    ensures { MatchOption result (Contains blocks.now block → ⊥) (λ at. (at < length blocks.now) × (slice_index_or blocks.now at block ≡ block)) }
{
    for (at, found) in blocks.iter().enumerate() {
        if *found == block {
            return Some(at);
        }
    }
    None
}
