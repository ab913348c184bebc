ghost use Rattle.std.specs.Prelude.{[], ◌∷◌};
ghost use Rattle.h2_set.specs.RefSet.{HoldsAll};
ghost use Rattle.h2_worked_rows.specs.Refs.{block_at};

/// Laws: the references of a file's blocks 0 and 1 lie in the range of 2^15 keys from 0 on. They don't in that of 2^14
/// keys; and no range of 2^15 keys begins with block 1, be it alone.
pub fn worked_ranges_law()
    ensures both { HoldsAll (block_at 0 ∷ block_at 16384 ∷ []) 0 15 }
    ensures none { HoldsAll [] 16384 14 }
    ensures too_short { HoldsAll (block_at 0 ∷ block_at 16384 ∷ []) 0 14 → ⊥ }
    ensures not_aligned { HoldsAll (block_at 16384 ∷ []) 16384 15 → ⊥ }
{}
