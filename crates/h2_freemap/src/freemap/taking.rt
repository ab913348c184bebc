ghost use Rattle.std.specs.Prelude.{◌≡◌, ◌≤◌, ◌+◌, ◌%◌, ◌<◌};
ghost use Rattle.h2_codes.specs.declared.code.Code.TheVariants.{Free, Used};
ghost use Rattle.h2_codes.specs.Codes.{tally};
ghost use Rattle.h2_freemap.specs.Space.{InVolume, chunk_count, code_of, cursor_of, ChangesCode, KeepsCursors, KeepsPins};
ghost use Rattle.h2_freemap.specs.Free.{free_of};
ghost use Rattle.h2_freemap.specs.Taking.{GoesTo, Takes, bytes_of, with_cursor};
ghost use Rattle.h2_freemap.specs.Need.{need_of, need_of_one};
ghost use Rattle.h2_freemap.specs.Consistent.{IsConsistent, IsCursor};

use crate::cursor::{blocks_left, with_room};
use crate::freemap::Freemap;
use crate::search::{lowest_free, one_if_free};
use crate::size::Size;
use h2_codes::{Code, Cursor};
use h2_geom::{SEGMENT_CHUNKS, chunk_place};
use h2_num::Block;

// How many blocks of 1 KiB a chunk holds.
const SMALL_PER_CHUNK: u32 = 16;

// How many of 4 KiB.
const MIDDLE_PER_CHUNK: u32 = 4;

impl Freemap {
    /// How many free chunks it takes to take so many blocks of the sizes, in any order. The blocks for
    /// which the cursors' chunks have room take none.
    pub fn need(&self, small: u32, middle: u32, whole: u32) -> u64
        ensures value { result ≡ need_of small middle whole self.now }
        ensures consistent { IsConsistent self.now }
    {
        let small = small.saturating_sub(blocks_left(self.small, Size::Small));
        let middle = middle.saturating_sub(blocks_left(self.middle, Size::Middle));
        small.div_ceil(SMALL_PER_CHUNK) as u64
            + middle.div_ceil(MIDDLE_PER_CHUNK) as u64
            + whole as u64
    }

    /// Takes a block of a size, whose need is at most what is free. It goes to the cursor of its size, or
    /// where there is none or its chunk is filled to the start of the lowest free chunk, as a whole chunk
    /// does. The chunk becomes used, and the cursor moves behind the block.
    pub fn take(&mut self, size: Size) -> Block
        requires enough { need_of_one size self.old ≤ free_of self.old }
        ensures takes { Takes size self.old self.new result }
        ensures free { free_of self.old ≡ free_of self.new + need_of_one size self.old }
        ensures aligned { result.place % bytes_of size ≡ 0 }
        ensures in_volume { InVolume self.new result }
    {
        let at = self.place_for(size);
        self.use_chunk(at.chunk);
        self.set_cursor(
            size,
            Cursor {
                chunk: at.chunk,
                used: at.used + size.bytes(),
            },
        );
        Block {
            place: chunk_place(at.chunk) + at.used as u64,
            radix: size.radix(),
        }
    }

    // Where a block of a size goes.
    fn place_for(&self, size: Size) -> Cursor
        requires enough { need_of_one size self.now ≤ free_of self.now }
        ensures goes_to { GoesTo size self.now result }
        ensures consistent { IsConsistent self.now }
    {
        if let Some(cursor) = with_room(self.cursor(size), size) {
            return cursor;
        }
        Cursor {
            chunk: lowest_free(&self.segments).unwrap(),
            used: 0,
        }
    }

    // The cursor of a size.
    fn cursor(&self, size: Size) -> Option<Cursor>
        ensures value { result ≡ cursor_of self.now size }
        ensures consistent { IsConsistent self.now }
    {
        // A field is read, so that the caller learns what holds of each freemap.
        let _geometry = &self.geometry;
        match size {
            Size::Small => self.small,
            Size::Middle => self.middle,
            Size::Whole => None,
        }
    }

    /// Makes a chunk of the volume used.
    pub(super) fn use_chunk(&mut self, chunk: u32)
        requires in_volume { chunk < chunk_count self.old }
        ensures code { ChangesCode chunk Used self.old self.new }
        ensures cursors { KeepsCursors self.old self.new }
        ensures pins { KeepsPins self.old self.new }
        ensures free { free_of self.new + tally Free (code_of self.old chunk) ≡ free_of self.old }
        ensures consistent { IsConsistent self.new }
    {
        let was = self.code(chunk);
        self.free -= one_if_free(was);
        self.segments[(chunk / SEGMENT_CHUNKS) as usize].set(
            (chunk % SEGMENT_CHUNKS) as u8,
            Code::Used,
        );
    }

    // Moves the cursor of a size; for whole chunks none is kept.
    fn set_cursor(&mut self, size: Size, cursor: Cursor)
        requires is_cursor { IsCursor size self.old cursor }
        ensures { self.new ≡ with_cursor size cursor self.old }
    {
        match size {
            Size::Small => self.small = Some(cursor),
            Size::Middle => self.middle = Some(cursor),
            Size::Whole => {}
        }
    }
}
