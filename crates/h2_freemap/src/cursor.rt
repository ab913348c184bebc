ghost use Rattle.std.specs.Prelude.{◌≡◌, ◌≤◌, ◌<◌, ◌*◌, All, Option, IfSome, length, MatchOption};
ghost use Rattle.h2_codes.specs.Codes.{IsSegment};
ghost use Rattle.h2_freemap.specs.Need.{blocks_left};
ghost use Rattle.h2_freemap.specs.Taking.{HasRoom, HasNoRoom};
ghost use Rattle.h2_freemap.specs.Sweeping.{kept_cursor};

use crate::size::Size;
use h2_codes::{Code, Cursor, Segment};
use h2_geom::{CHUNK_BYTES, SEGMENT_CHUNKS};

/// How many blocks of a size the cursor's chunk has room for; none where there is no cursor.
pub(crate) fn blocks_left(cursor: Option<Cursor>, size: Size) -> u32
    ensures { result ≡ blocks_left size cursor }
{
    match cursor {
        Some(cursor) => (CHUNK_BYTES as u32).saturating_sub(cursor.used) / size.bytes(),
        None => 0,
    }
}

/// The cursor, where its chunk has room for a block of the size.
pub(crate) fn with_room(cursor: Option<Cursor>, size: Size) -> Option<Cursor>
    ensures same { IfSome result (λ at. cursor ≡ Some at) }
    ensures room { MatchOption result (HasNoRoom size cursor) (HasRoom size) }
{
    let cursor = cursor?;
    if cursor.used > CHUNK_BYTES as u32 - size.bytes() {
        return None;
    }
    Some(cursor)
}

/// The cursor, unless its chunk is free.
pub(crate) fn keep_cursor(cursor: Option<Cursor>, segments: &[Segment]) -> Option<Cursor>
    requires { IfSome cursor (λ at. at.chunk < 256 * length segments.now) }
    ensures { result ≡ kept_cursor segments.now cursor }
{
    let cursor = cursor?;
    let segment = &segments[(cursor.chunk / SEGMENT_CHUNKS) as usize];
    match segment.get((cursor.chunk % SEGMENT_CHUNKS) as u8) {
        Code::Free => None,
        Code::Reserved | Code::Staged | Code::Used => Some(cursor),
    }
}
