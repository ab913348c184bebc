ghost use Rattle.std.specs.Prelude.{None, Some, [], ◌∷◌};
ghost use Rattle.h2_codes.specs.declared.code.Code.TheVariants.{Free, Staged, Used};
ghost use Rattle.h2_ledger.specs.declared.pass.Pass.TheVariants.{Idle, Marked, Scanning};
ghost use Rattle.h2_ledger.specs.Sound.{IsSound, UnwrittenIsApart};
ghost use Rattle.h2_ledger_rows.specs.Ledgers.{IsIn, block_of, chunk_block, old_tree, new_tree, codes_of, used_codes, resting, opened};
ghost use Rattle.h2_ledger_rows.specs.Passes.{half_applied, after_two, marked_only};
ghost use Rattle.h2_ledger_rows.specs.Sound.{cursor_at, with_cursors, flushing_as};
ghost use Rattle.h2_ledger_rows.specs.Unwritten.{unwritten, second_block, third_block};

/// Laws: an opened volume is sound, also during a pass and after two. Not sound is one whose tree has a block in a free
/// chunk or over a chunk's end; one with a pass that hasn't marked what is in use in a staged chunk, that marked
/// something in a free one, or that scans before its header is out; one with a flush of a header after the next; one with
/// a cursor before what is in use, in a free chunk, or in the chunk of the other; and one with more reserved than free.
pub fn worked_sound_law()
    ensures opened { IsSound IsIn opened }
    ensures marked { IsSound IsIn marked_only }
    ensures half { IsSound IsIn (half_applied used_codes 2 old_tree) }
    ensures twice { IsSound IsIn after_two }
    ensures not_covered { IsSound IsIn (resting (codes_of Free Used Used) 1 old_tree old_tree Idle []) → ⊥ }
    ensures not_in_one_chunk { IsSound IsIn (resting used_codes 1 old_tree (block_of 256 8192 14 ∷ []) Idle []) → ⊥ }
    ensures not_marked { IsSound IsIn (resting (codes_of Staged Used Used) 2 old_tree old_tree (Scanning 2 0) []) → ⊥ }
    ensures not_marked_free { IsSound IsIn (resting used_codes 2 old_tree old_tree (Scanning 2 0) (chunk_block 256 ∷ chunk_block 259 ∷ [])) → ⊥ }
    ensures not_before_header { IsSound IsIn (resting used_codes 1 old_tree old_tree (Scanning 2 0) old_tree) → ⊥ }
    ensures not_next { IsSound IsIn (flushing_as 3) → ⊥ }
    ensures not_below_cursor { IsSound IsIn (with_cursors (cursor_at 256 8192) None 0) → ⊥ }
    ensures not_cursor_taken { IsSound IsIn (with_cursors (cursor_at 259 0) None 0) → ⊥ }
    ensures not_cursors_apart { IsSound IsIn (with_cursors (cursor_at 257 0) (cursor_at 257 4096) 0) → ⊥ }
    ensures not_reserved { IsSound IsIn (with_cursors None None 254) → ⊥ }
{}

/// Laws: what is yet to be written is apart where a flush writes the block of chunk 258, which its own pass marked, and
/// the block of 257 is fresh. It isn't where a fresh block is one of the newest header, or a part of one; one of the
/// flush; or one that the pass marked. Nor where a queued block is one of the newest header; or one that the pass marked
/// in a flush before this one.
pub fn worked_unwritten_law()
    ensures apart { UnwrittenIsApart IsIn (unwritten (Some 3) new_tree (Marked 3) new_tree second_block third_block) }
    ensures not_fresh_completed { UnwrittenIsApart IsIn (unwritten None [] Idle [] old_tree []) → ⊥ }
    ensures not_fresh_part { UnwrittenIsApart IsIn (unwritten None [] Idle [] (block_of 256 1024 10 ∷ []) []) → ⊥ }
    ensures not_fresh_frozen { UnwrittenIsApart IsIn (unwritten (Some 3) new_tree Idle [] third_block []) → ⊥ }
    ensures not_fresh_marked { UnwrittenIsApart IsIn (unwritten None [] (Scanning 2 0) new_tree third_block []) → ⊥ }
    ensures not_queued_completed { UnwrittenIsApart IsIn (unwritten (Some 3) new_tree Idle [] [] old_tree) → ⊥ }
    ensures not_queued_marked { UnwrittenIsApart IsIn (unwritten (Some 3) new_tree (Scanning 2 0) new_tree [] third_block) → ⊥ }
{}
