ghost use Rattle.std.specs.Prelude.{◌≡◌, List, []};
ghost use Rattle.h2_num.specs.declared.block.Block.{Block};
ghost use Rattle.h2_ledger.specs.declared.pass.Pass.TheVariants.{Idle};
ghost use Rattle.h2_ledger.specs.declared.shared_size.SharedSize.TheVariants.{Small};
ghost use Rattle.h2_ledger.specs.Ledger.{Ledger};
ghost use Rattle.h2_ledger.specs.Moves.{TakesFirst, TakesNext, TakesWhole, Adopts, Reserves};
ghost use Rattle.h2_ledger.specs.Sound.{IsSound};
ghost use Rattle.h2_ledger_rows.specs.Ledgers.{IsIn, block_of, chunk_block, old_tree, new_tree, used_codes, resting, opened};
ghost use Rattle.h2_ledger_rows.specs.Takes.{after_first, after_next, reserving, after_whole, full, full_without_cursor, after_full};

/// Laws: with chunks 256 to 258 used, a first small block is taken in chunk 259, the lowest that is free, and the
/// next one behind it. A whole chunk is chunk 259 too, also where all that is free is reserved, of which it is one
/// then. In a full volume a small block is taken at the cursor, and none without one. Nothing is taken in a chunk
/// behind the lowest, in a free one while the cursor has room, with a gap behind the cursor, or where all that is
/// free is reserved for others.
pub fn worked_take_law()
    ensures first { TakesFirst IsIn Small (block_of 259 0 10) opened after_first }
    ensures next { TakesNext IsIn Small (block_of 259 1024 10) after_first after_next }
    ensures sound { IsSound IsIn after_next }
    ensures whole { TakesWhole IsIn (chunk_block 259) opened (after_whole 0) }
    ensures reserved { TakesWhole IsIn (chunk_block 259) (reserving 253) (after_whole 252) }
    ensures in_full { TakesNext IsIn Small (block_of 258 1024 10) full after_full }
    ensures not_in_full { (b : Block) (y : Ledger (List Block)) → TakesFirst IsIn Small b full_without_cursor y → ⊥ }
    ensures not_behind_lowest { (y : Ledger (List Block)) → TakesFirst IsIn Small (block_of 260 0 10) opened y → ⊥ }
    ensures not_whole_behind { (y : Ledger (List Block)) → TakesWhole IsIn (chunk_block 260) opened y → ⊥ }
    ensures not_beside_cursor { (y : Ledger (List Block)) → TakesFirst IsIn Small (block_of 260 0 10) after_first y → ⊥ }
    ensures not_with_gap { (y : Ledger (List Block)) → TakesNext IsIn Small (block_of 259 2048 10) after_first y → ⊥ }
    ensures not_unpaid { (y : Ledger (List Block)) → y.reserved ≡ 253 → TakesWhole IsIn (chunk_block 259) (reserving 253) y → ⊥ }
{}

/// Laws: a block in a used chunk may be shared; none in a free chunk, in the cursor's, or over its chunk's end. All 253
/// chunks that are free may be reserved, and no more.
pub fn worked_adopt_law()
    ensures adopts { Adopts IsIn (chunk_block 258) opened (resting used_codes 1 old_tree new_tree Idle []) }
    ensures not_free { (y : Ledger (List Block)) → Adopts IsIn (chunk_block 259) opened y → ⊥ }
    ensures not_at_cursor { (y : Ledger (List Block)) → Adopts IsIn (block_of 259 4096 12) after_first y → ⊥ }
    ensures not_over_end { (y : Ledger (List Block)) → Adopts IsIn (block_of 257 8192 14) opened y → ⊥ }
    ensures reserves { Reserves IsIn opened (reserving 253) }
    ensures not_more { Reserves IsIn opened (reserving 254) → ⊥ }
{}
