ghost use Rattle.std.specs.Prelude.{◌≡◌, [], ◌∷◌, true, false, None, Some, length, slice_index};
ghost use Rattle.h2_contents.specs.Bytes.{written_at};
ghost use Rattle.h2_file.specs.Touching.{IsTouched};
ghost use Rattle.h2_file.specs.Writing.{IsMerged, ReadsBlock};
ghost use Rattle.h2_write_rows.specs.Writes.{touched_of, written, ones, block_at, one_block, merged_first};

/// Laws: 4 bytes at 16382 of a file of 20000 touch blocks 0 and 1. Behind an inode's 5 bytes and a hole, 3 bytes at
/// 32768 touch block 2, and block 0 is put for the 5. A file that still fits into its inode has no block.
pub fn worked_touched_law()
    ensures two_blocks { IsTouched 20000 16382 4 (touched_of 0 2 false) }
    ensures not_one { IsTouched 20000 16382 4 (touched_of 0 1 false) → ⊥ }
    ensures behind_hole { IsTouched 5 32768 3 (touched_of 2 1 true) }
    ensures not_unlifted { IsTouched 5 32768 3 (touched_of 2 1 false) → ⊥ }
    ensures in_inode { IsTouched 5 500 12 (touched_of 0 0 false) }
    ensures not_in_inode { IsTouched 5 500 13 (touched_of 0 0 false) → ⊥ }
{}

/// Laws: a file with these bytes after a write: over its own, over the end, and over a hole, which has zeros.
pub fn worked_written_law()
    ensures inside { written_at (1 ∷ 2 ∷ 3 ∷ 4 ∷ []) 1 (8 ∷ 9 ∷ []) ≡ 1 ∷ 8 ∷ 9 ∷ 4 ∷ [] }
    ensures over_end { written_at (1 ∷ 2 ∷ []) 1 (8 ∷ 9 ∷ []) ≡ 1 ∷ 8 ∷ 9 ∷ [] }
    ensures over_hole { written_at (1 ∷ []) 3 (8 ∷ 9 ∷ []) ≡ 1 ∷ 0 ∷ 0 ∷ 8 ∷ 9 ∷ [] }
    ensures nothing { written_at (1 ∷ []) 3 [] ≡ 1 ∷ [] }
    ensures long { length (written_at ones 16382 written) ≡ 20000 }
    ensures last_kept { slice_index (written_at ones 16382 written) 16381 ≡ 1 }
    ensures in_first { slice_index (written_at ones 16382 written) 16383 ≡ 8 }
    ensures in_second { slice_index (written_at ones 16382 written) 16384 ≡ 7 }
    ensures next_kept { slice_index (written_at ones 16382 written) 16386 ≡ 1 }
{}

/// Laws: of 20000 bytes 1, over which 9, 8, 7 and 6 are written at 16382, block 0 ends with 9 and 8. The block without
/// them isn't what the write makes. A place in the 20000 bytes is read as its block and no other; where they aren't
/// zero, no hole is found. Behind a file of one byte a hole is read as zeros.
pub fn worked_merged_law()
    ensures first { IsMerged (one_block merged_first) ones 16382 written (block_at 0) }
    ensures not_unmerged { IsMerged (one_block ones) ones 16382 written (block_at 0) → ⊥ }
    ensures hole { ReadsBlock (one_block ones) (1 ∷ []) 16385 None }
    ensures not_hole { ReadsBlock (one_block ones) ones 16385 None → ⊥ }
    ensures block { ReadsBlock (one_block ones) ones 5 (Some (block_at 0)) }
    ensures not_other_block { ReadsBlock (one_block ones) ones 16385 (Some (block_at 0)) → ⊥ }
{}
