ghost use Rattle.std.specs.Prelude.{[], ◌∷◌, true, false, ℕ, Option, None, Some};
ghost use Rattle.h2_num.specs.Places.{Places};
ghost use Rattle.h2_ref.specs.declared.reference.Ref.{Ref};
ghost use Rattle.h2_file.specs.Writing.{AreOfTouched};
ghost use Rattle.h2_file.specs.FileContents.{IsBlockOf, EndsIn, LinksBytes, CoversBytes};
ghost use Rattle.h2_write_rows.specs.Writes.{touched_of, block_at, one_block};

/// Laws: the references of blocks 0 and 1 are those of a write that touches these, and those of 0 and 2 of one that
/// touches block 2 where block 0 is put for the inode's bytes. None may be lacking, be one too many, or begin within a
/// block.
pub fn worked_references_law()
    ensures two { AreOfTouched (touched_of 0 2 false) (block_at 0 ∷ block_at 16384 ∷ []) }
    ensures lifted { AreOfTouched (touched_of 2 1 true) (block_at 0 ∷ block_at 32768 ∷ []) }
    ensures not_lacking { AreOfTouched (touched_of 0 2 false) (block_at 0 ∷ []) → ⊥ }
    ensures not_more { AreOfTouched (touched_of 0 1 false) (block_at 0 ∷ block_at 16384 ∷ []) → ⊥ }
    ensures not_within { AreOfTouched (touched_of 0 1 false) (block_at 1 ∷ []) → ⊥ }
{}

/// Laws: a block that begins with 9 and has zeros behind it makes of a file of two bytes one of three. It neither makes a
/// file shorter, nor lies behind the file's end, nor leaves a byte of its own as it was; outside of all blocks no byte
/// changes.
pub fn worked_linked_law()
    ensures links { LinksBytes (one_block (9 ∷ [])) (block_at 0 ∷ []) 3 (1 ∷ 2 ∷ []) (9 ∷ 0 ∷ 0 ∷ []) }
    ensures not_shorter { LinksBytes (one_block (9 ∷ [])) (block_at 0 ∷ []) 1 (1 ∷ 2 ∷ []) (9 ∷ []) → ⊥ }
    ensures not_past_end { LinksBytes (one_block []) (block_at 16384 ∷ []) 3 (1 ∷ 2 ∷ []) (1 ∷ 2 ∷ 0 ∷ []) → ⊥ }
    ensures not_kept { LinksBytes (one_block (9 ∷ [])) (block_at 0 ∷ []) 3 (1 ∷ 2 ∷ []) (9 ∷ 2 ∷ 0 ∷ []) → ⊥ }
    ensures not_elsewhere { LinksBytes (one_block (9 ∷ [])) [] 2 (1 ∷ 2 ∷ []) (1 ∷ 3 ∷ []) → ⊥ }
{}

/// Laws: block 0 has the places of bytes that leave the inode, and block 2 hasn't. A place behind a file's bytes is in a
/// hole, and one in a block with a byte isn't: that block is found.
pub fn worked_holes_law()
    ensures covers { CoversBytes (block_at 0 ∷ []) (1 ∷ 2 ∷ []) }
    ensures not_lost { CoversBytes (block_at 32768 ∷ []) (1 ∷ []) → ⊥ }
    ensures found { IsBlockOf (one_block (1 ∷ [])) 1 (1 ∷ []) 5 (Some (block_at 0)) }
    ensures hole { (blocks : Ref → Option Places) → IsBlockOf blocks 1 (1 ∷ []) 16385 None }
    ensures not_hole { (blocks : Ref → Option Places) → IsBlockOf blocks 1 (1 ∷ []) 5 None → ⊥ }
{}

/// Laws: a cut of three bytes to two ends in a block with the two and zeros behind them. The block as it was won't do, nor
/// none; where there are but the two, none is needed.
pub fn worked_cut_law()
    ensures put { EndsIn (one_block (1 ∷ 2 ∷ [])) 2 (1 ∷ 2 ∷ 3 ∷ []) (Some (block_at 0)) }
    ensures none { EndsIn (one_block []) 2 (1 ∷ 2 ∷ []) None }
    ensures not_uncut { EndsIn (one_block (1 ∷ 2 ∷ 3 ∷ [])) 2 (1 ∷ 2 ∷ 3 ∷ []) (Some (block_at 0)) → ⊥ }
    ensures not_lacking { EndsIn (one_block []) 2 (1 ∷ 2 ∷ 3 ∷ []) None → ⊥ }
{}
