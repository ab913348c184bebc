ghost use Rattle.std.specs.Prelude.{◌≡◌, ◌≢◌, ◌<◌, ◌≤◌, ◌+◌, ◌*◌, ◌/◌, ◌^◌, ℕ, length, MatchOption};
ghost use Rattle.h2_codes.specs.declared.code.Code.TheVariants.{Free};
ghost use Rattle.h2_codes.specs.Codes.{code_at, tally};
ghost use Rattle.h2_codes.specs.Free.{free_below};
ghost use Rattle.h2_plain_ledger.specs.State.{has, IsFoundLowest, IsCodeAfter, IsApplied};

use crate::blocks::has_block_in;
use h2_codes::Code;
use h2_geom::SEGMENT_CHUNKS;
use h2_num::Block;

/// The lowest free chunk.
pub fn lowest_free(codes: &[Code]) -> Option<u32>
    requires few { length codes.now ≤ 1048576 }
    ensures { IsFoundLowest codes.now result }
{
    let chunk = codes.iter().position(|code| matches!(code, Code::Free))?;
    Some(chunk as u32)
}

/// 1 for the code of a free chunk, and 0 for others.
pub fn one_if_free(code: Code) -> u64
    ensures { result ≡ tally Free code }
{
    match code {
        Code::Free => 1,
        Code::Reserved | Code::Staged | Code::Used => 0,
    }
}

/// How many chunks are free.
pub fn free_chunks(codes: &[Code]) -> u64
    requires few { length codes.now ≤ 1048576 }
    ensures { result ≡ free_below (code_at codes.now) (length codes.now) }
{
    let mut free = 0;
    for chunk in 0..codes.len() {
        free += one_if_free(codes[chunk]);
    }
    free
}

/// The code of a chunk after a pass that marked these blocks has applied its segment.
pub fn code_after(code: Code, chunk: u32, marked: &[Block]) -> Code
    ensures { IsCodeAfter marked.now chunk code result }
{
    let is_marked = has_block_in(marked, chunk);
    match code {
        Code::Free => Code::Free,
        Code::Reserved => Code::Reserved,
        Code::Staged if is_marked => Code::Used,
        Code::Staged => Code::Free,
        Code::Used if is_marked => Code::Used,
        Code::Used => Code::Staged,
    }
}

/// Applies the segment that begins at a chunk.
pub fn apply_segment(codes: &mut [Code], first: u32, marked: &[Block])
    requires within { first + 256 ≤ length codes.old }
    requires few { length codes.old ≤ 1048576 }
    ensures { IsApplied marked.now first 256 codes.old codes.new }
{
    for k in 0..SEGMENT_CHUNKS {
        let chunk = first + k;
        codes[chunk as usize] = code_after(codes[chunk as usize], chunk, marked);
    }
}
