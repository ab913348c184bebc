ghost use Rattle.std.specs.Prelude.{◌≡◌, ◌^◌, ℕ, ◌↔◌, IsTrue, Some, IfSome, IfNone};
ghost use Rattle.h2_codes.specs.declared.cursor.Cursor.{Cursor};
ghost use Rattle.h2_ledger.specs.Moves as moves;
ghost use Rattle.h2_plain_ledger.specs.State as state;
ghost use Rattle.h2_plain_ledger.specs.State.{cursor_of, with_cursor, HasRoomAt, IsFilledAt};

use h2_codes::{Code, Cursor};
use h2_geom::CHUNK_BYTES;
use h2_ledger::SharedSize;

/// The radix of a block of a shared size: 10 or 12.
pub fn radix_of(size: SharedSize) -> u8
    ensures { result ≡ moves.radix_of size }
{
    match size {
        SharedSize::Small => 10,
        SharedSize::Middle => 12,
    }
}

/// The bytes of a block of a shared size: 1 KiB or 4 KiB.
pub fn bytes_of(size: SharedSize) -> u32
    ensures { result ≡ 2 ^ moves.radix_of size }
{
    match size {
        SharedSize::Small => 1024,
        SharedSize::Middle => 4096,
    }
}

/// The cursors of the two shared sizes.
#[derive(Clone, Copy, Debug, PartialEq, Eq)]
pub struct Cursors {
    pub small: Option<Cursor>,
    pub middle: Option<Cursor>,
}

impl Cursors {
    /// The cursor of a size.
    pub fn at(self, size: SharedSize) -> Option<Cursor>
        ensures { result ≡ cursor_of self size }
    {
        match size {
            SharedSize::Small => self.small,
            SharedSize::Middle => self.middle,
        }
    }

    /// The same cursors, but for that of one size.
    pub fn with(self, size: SharedSize, cursor: Option<Cursor>) -> Cursors
        ensures { result ≡ with_cursor self size cursor }
    {
        match size {
            SharedSize::Small => Cursors {
                small: cursor,
                middle: self.middle,
            },
            SharedSize::Middle => Cursors {
                small: self.small,
                middle: cursor,
            },
        }
    }

    /// The same cursors, but for those in chunks that are free.
    pub fn forget_free(self, codes: &[Code]) -> Cursors
        ensures small { result.small ≡ state.unless_free codes.now self.small }
        ensures middle { result.middle ≡ state.unless_free codes.now self.middle }
    {
        Cursors {
            small: unless_free(self.small, codes),
            middle: unless_free(self.middle, codes),
        }
    }
}

/// The cursor, unless its chunk is free.
pub fn unless_free(cursor: Option<Cursor>, codes: &[Code]) -> Option<Cursor>
    ensures { result ≡ state.unless_free codes.now cursor }
{
    let at = cursor?;
    match codes.get(at.chunk as usize) {
        Some(Code::Free) => None,
        Some(Code::Reserved | Code::Staged | Code::Used) | None => Some(at),
    }
}

/// Whether there is no cursor, or its chunk has no room for a block of the size.
pub fn is_filled(cursor: Option<Cursor>, size: SharedSize) -> bool
    ensures { IsTrue result ↔ IsFilledAt size cursor }
{
    match cursor {
        Some(at) => at.used as u64 + bytes_of(size) as u64 > CHUNK_BYTES,
        None => true,
    }
}

/// The cursor, where it has room for a block of the size in a volume of so many chunks.
pub fn room_at(cursor: Option<Cursor>, size: SharedSize, chunks: usize) -> Option<Cursor>
    ensures room { IfSome result (λ at. (cursor ≡ Some at) × HasRoomAt size chunks at) }
    ensures none { IfNone result ((at : Cursor) → cursor ≡ Some at → HasRoomAt size chunks at → ⊥) }
{
    let at = cursor?;
    if at.chunk as usize >= chunks || at.used as u64 + bytes_of(size) as u64 > CHUNK_BYTES {
        return None;
    }
    Some(at)
}
