ghost use Rattle.std.specs.Prelude.{◌≡◌, ◌++◌, ◌∷◌};
ghost use Rattle.std.specs.List.{AllByRecursion};
ghost use Rattle.h2_codes.specs.declared.code.Code.TheVariants.{Free, Staged, Used};
ghost use Rattle.h2_ledger.specs.Ledger.{HasBlockIn};
ghost use Rattle.h2_ledger.specs.Moves.{relink, Applies};
ghost use Rattle.h2_ledger.specs.Runs.{NoJoinIn, Run, AppliesUnmarked, IsOpened};
ghost use Rattle.h2_ledger.specs.Passes.{IsComplete, AreSuccessive, IsTwiceUnmarked};
ghost use Rattle.h2_ledger_rows.specs.Ledgers.{IsIn, old_tree, new_tree, used_codes, opened};
ghost use Rattle.h2_ledger_rows.specs.Passes.{half_pass, pass_moves, two_passes, half_applied, after_one, after_two};
ghost use Rattle.h2_ledger_rows.specs.Premises.{
  between_joined,
  joined_moves,
  before_joined,
  last_joined,
  half_adopting,
  adopting_pass,
  before_adopted,
  after_adopted,
  before_marked,
  last_marked,
  opened_new,
  after_new,
  three_passes,
  last_of_three,
};

/// Laws: two passes find chunk 257 unused, which is free afterwards. They don't find chunk 256 unused.
pub fn worked_twice_law()
    ensures twice { IsTwiceUnmarked IsIn 257 2 3 two_passes opened after_two }
    ensures freed { after_two.code 257 ≡ Free }
    ensures not_used { IsTwiceUnmarked IsIn 256 2 3 two_passes opened after_two → ⊥ }
{}

/// Laws: where a block of chunk 258 is shared for a while between the two passes, which mark nothing in it, the chunk is
/// staged after the second. Of what the law of two passes asks, only `no_join` doesn't hold.
pub fn worked_joined_law()
    ensures opens { IsOpened IsIn opened }
    ensures leads { Run IsIn (half_pass 2) opened (half_applied used_codes 2 old_tree) }
    ensures first { AppliesUnmarked IsIn 258 2 (half_applied used_codes 2 old_tree) after_one }
    ensures goes_on { Run IsIn between_joined after_one before_joined }
    ensures joins { AllByRecursion (NoJoinIn 258) between_joined → ⊥ }
    ensures second { AppliesUnmarked IsIn 258 3 before_joined last_joined }
    ensures successive { AreSuccessive 512 2 3 joined_moves }
    ensures staged { last_joined.code 258 ≡ Staged }
    ensures not_reached { IsTwiceUnmarked IsIn 258 2 3 joined_moves opened last_joined → ⊥ }
{}

/// Laws: where a block of chunk 258 is shared after the freeze of the first pass, so that the second one marks it, the
/// chunk is used after the second. Of what the law of two passes asks, only `second.unmarked` doesn't hold.
pub fn worked_second_marked_law()
    ensures opens { IsOpened IsIn opened }
    ensures leads { Run IsIn half_adopting opened before_adopted }
    ensures first { AppliesUnmarked IsIn 258 2 before_adopted after_adopted }
    ensures goes_on { Run IsIn (half_pass 3) after_adopted before_marked }
    ensures no_join { AllByRecursion (NoJoinIn 258) (half_pass 3) }
    ensures applies { Applies IsIn 3 1 before_marked last_marked }
    ensures marks { HasBlockIn IsIn before_marked.marked 258 }
    ensures successive { AreSuccessive 512 2 3 (adopting_pass ++ pass_moves 3) }
    ensures used { last_marked.code 258 ≡ Used }
    ensures not_reached { IsTwiceUnmarked IsIn 258 2 3 (adopting_pass ++ pass_moves 3) opened last_marked → ⊥ }
{}

/// Laws: where the first pass marks a block of chunk 258, of which the tree lets go before the second, the chunk is
/// staged after the second. Of what the law of two passes asks, only `first.unmarked` doesn't hold.
pub fn worked_first_marked_law()
    ensures opens { IsOpened IsIn opened_new }
    ensures leads { Run IsIn (half_pass 2) opened_new (half_applied used_codes 2 new_tree) }
    ensures applies { Applies IsIn 2 1 (half_applied used_codes 2 new_tree) after_new }
    ensures marks { HasBlockIn IsIn new_tree 258 }
    ensures goes_on { Run IsIn (relink ∷ half_pass 3) after_new before_joined }
    ensures no_join { AllByRecursion (NoJoinIn 258) (relink ∷ half_pass 3) }
    ensures second { AppliesUnmarked IsIn 258 3 before_joined last_joined }
    ensures successive { AreSuccessive 512 2 3 (pass_moves 2 ++ (relink ∷ pass_moves 3)) }
    ensures staged { last_joined.code 258 ≡ Staged }
    ensures not_reached { IsTwiceUnmarked IsIn 258 2 3 (pass_moves 2 ++ (relink ∷ pass_moves 3)) opened_new last_joined → ⊥ }
{}

/// Laws: where a third pass marks chunk 258 between two that don't, the chunk is staged after the last. Of what the law
/// of two passes asks, only `none_between` doesn't hold.
pub fn worked_third_pass_law()
    ensures twice { IsTwiceUnmarked IsIn 258 2 4 three_passes opened last_of_three }
    ensures first { IsComplete 512 2 three_passes }
    ensures second { IsComplete 512 4 three_passes }
    ensures between { IsComplete 512 3 three_passes }
    ensures staged { last_of_three.code 258 ≡ Staged }
    ensures not_successive { AreSuccessive 512 2 4 three_passes → ⊥ }
{}
