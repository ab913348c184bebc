ghost use Rattle.std.specs.Prelude.{◌≡◌, ◌≢◌, ◌↔◌, ℕ, IsTrue, Some};
ghost use Rattle.h2_codes.specs.Codes.{code_at};
ghost use Rattle.h2_codes.specs.declared.cursor.Cursor.{Cursor};
ghost use Rattle.h2_ledger.specs.Ledger.{LiesInOneChunk, IsTaken, block_chunk};
ghost use Rattle.h2_plain_ledger.specs.Steps.{IsElsewhere, IsShareable};

use crate::cursors::Cursors;
use h2_codes::{Code, Cursor};
use h2_geom::CHUNK_BYTES;
use h2_num::Block;

/// Whether the block doesn't cross the end of its chunk.
pub fn lies_in_one_chunk(block: Block) -> bool
    ensures { IsTrue result ↔ LiesInOneChunk block }
{
    if block.radix > 14 {
        return false;
    }
    let bytes = 2u64.pow(block.radix as u32);
    block.place % CHUNK_BYTES + bytes <= CHUNK_BYTES
}

/// Whether the chunk is staged or used.
pub fn is_taken(codes: &[Code], chunk: u64) -> bool
    ensures { IsTrue result ↔ IsTaken (code_at codes.now chunk) }
{
    match codes.get(chunk as usize) {
        Some(Code::Staged | Code::Used) => true,
        Some(Code::Free | Code::Reserved) | None => false,
    }
}

/// Whether the cursor isn't in the chunk.
pub fn is_elsewhere(cursor: Option<Cursor>, chunk: u64) -> bool
    ensures { IsTrue result ↔ IsElsewhere cursor chunk }
{
    match cursor {
        Some(at) => at.chunk as u64 != chunk,
        None => true,
    }
}

/// Whether the block may be shared.
pub fn may_share(codes: &[Code], cursors: Cursors, block: Block) -> bool
    ensures { IsTrue result ↔ IsShareable codes.now cursors block }
{
    let chunk = block.place / CHUNK_BYTES;
    lies_in_one_chunk(block)
        && is_taken(codes, chunk)
        && is_elsewhere(cursors.small, chunk)
        && is_elsewhere(cursors.middle, chunk)
}
