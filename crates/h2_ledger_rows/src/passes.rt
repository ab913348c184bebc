ghost use Rattle.std.specs.Prelude.{ℕ, ◌++◌, [], ◌∷◌, List};
ghost use Rattle.h2_num.specs.declared.block.Block.{Block};
ghost use Rattle.h2_codes.specs.declared.code.Code.TheVariants.{Free, Staged, Used};
ghost use Rattle.h2_ledger.specs.declared.pass.Pass.TheVariants.{Scanning};
ghost use Rattle.h2_ledger.specs.Ledger.{Ledger};
ghost use Rattle.h2_ledger.specs.Moves.{EndsPass, BeginsScan, Applies};
ghost use Rattle.h2_ledger.specs.Runs.{Run, IsOpened};
ghost use Rattle.h2_ledger.specs.Passes.{IsComplete, AreSuccessive};
ghost use Rattle.h2_ledger_rows.specs.Ledgers.{IsIn, old_tree, codes_of, used_codes, resting, opened};
ghost use Rattle.h2_ledger_rows.specs.Passes.{half_pass, pass_moves, given_up, two_passes, half_applied, applied, after_one, after_two, marked_only};

/// Laws: from an opened volume on, whose tree has a block in chunk 256, the moves of a pass lead to the ledger in which
/// the used chunks 257 and 258 are staged, and those of a second one to the ledger in which they are free. One pass
/// neither frees them nor leaves them used, and doesn't stage chunk 256. A pass can't scan before its header is out, nor
/// apply a segment again or before its turn, nor be given up once it has applied one.
pub fn worked_pass_law()
    ensures opened { IsOpened IsIn opened }
    ensures half { Run IsIn (half_pass 2) opened (half_applied used_codes 2 old_tree) }
    ensures one { Run IsIn (pass_moves 2) opened after_one }
    ensures two { Run IsIn two_passes opened after_two }
    ensures not_at_once { Run IsIn (pass_moves 2) opened (applied (codes_of Used Free Free) 2 old_tree) → ⊥ }
    ensures not_kept { Run IsIn (pass_moves 2) opened (applied used_codes 2 old_tree) → ⊥ }
    ensures not_staged { Run IsIn (pass_moves 2) opened (applied (codes_of Staged Staged Staged) 2 old_tree) → ⊥ }
    ensures not_scanned { (y : Ledger (List Block)) → BeginsScan IsIn marked_only y → ⊥ }
    ensures not_again { (y : Ledger (List Block)) → Applies IsIn 2 0 (half_applied used_codes 2 old_tree) y → ⊥ }
    ensures not_ahead { (y : Ledger (List Block)) → Applies IsIn 2 1 (resting used_codes 2 old_tree old_tree (Scanning 2 0) old_tree) y → ⊥ }
    ensures not_ended { (y : Ledger (List Block)) → EndsPass IsIn (half_applied used_codes 2 old_tree) y → ⊥ }
{}

/// Laws: the moves of a pass that applies both segments are a complete pass of a volume of two segments, those without
/// the second apply aren't, nor are they one of a volume of three. Two complete passes are successive, also with one
/// between them that was given up, and not with a complete one between them.
pub fn worked_passes_law()
    ensures complete { IsComplete 512 2 (pass_moves 2) }
    ensures not_half { IsComplete 512 2 (half_pass 2) → ⊥ }
    ensures not_larger { IsComplete 768 2 (pass_moves 2) → ⊥ }
    ensures not_another { IsComplete 512 3 (pass_moves 2) → ⊥ }
    ensures successive { AreSuccessive 512 2 3 two_passes }
    ensures beside_given_up { AreSuccessive 512 2 4 (pass_moves 2 ++ (given_up ++ pass_moves 4)) }
    ensures not_beside { AreSuccessive 512 2 4 (two_passes ++ pass_moves 4) → ⊥ }
{}
