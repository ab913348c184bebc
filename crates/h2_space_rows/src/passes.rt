ghost use Rattle.std.specs.Prelude.{◌≡◌};
ghost use Rattle.h2_codes.specs.declared.code.Code.TheVariants.{Staged, Used};
ghost use Rattle.h2_codes.specs.Bulkfree.{IsSwept, count_unseen};
ghost use Rattle.h2_space_rows.specs.Passes.{seen_first, seen_second, used_before, after_first, taken_between, after_second};

/// Laws: two passes over a segment of four used chunks. The first pass sees chunks 2 and 3, and the second sees 1 and
/// 2. Chunk 0, which neither sees, is staged and then free; chunk 1, in which a block is taken between them, is staged,
/// then used, and stays so; chunk 2, which both see, as by a pin, stays used; chunk 3, which the first saw, is staged by
/// the second. The first stages two chunks and frees none, and the second stages one and frees one. Neither frees more.
/// A staged chunk that the second sees is used again, also where nothing was taken in it.
pub fn worked_passes_law()
    ensures first { IsSwept seen_first used_before after_first }
    ensures second { IsSwept seen_second taken_between after_second }
    ensures reached { IsSwept seen_second after_first after_second }
    ensures first_staged { count_unseen Used used_before seen_first ≡ 2 }
    ensures first_freed { count_unseen Staged used_before seen_first ≡ 0 }
    ensures second_staged { count_unseen Used taken_between seen_second ≡ 1 }
    ensures second_freed { count_unseen Staged taken_between seen_second ≡ 1 }
    ensures not_at_once { IsSwept seen_first used_before after_second → ⊥ }
    ensures not_untaken { IsSwept seen_second after_first after_first → ⊥ }
    ensures not_kept { IsSwept seen_second taken_between taken_between → ⊥ }
{}
