ghost use Rattle.std.specs.Prelude.{◌≡◌, ◌⊎◌, ℕ, [], ◌∷◌};
ghost use Rattle.h2_checkpoint.specs.Format.{ReachesByte, IsLawful, IsNewest, HasNoHeader};
ghost use Rattle.h2_checkpoint.specs.Checkpoint.{Blank, Completed};
ghost use Rattle.h2_checkpoint.specs.Marks.{newest_at, IsLanding, IsFrozenForest};
ghost use Rattle.h2_checkpoint.specs.Runs.{Mounts};
ghost use Rattle.h2_checkpoint.specs.Making.{IsFirstPlan};
ghost use Rattle.h2_checkpoint.specs.Toy.{toy};
ghost use Rattle.h2_crash_rows.specs.Cuts.{zeros};
ghost use Rattle.h2_crash_rows.specs.Formats.{leading_past_end};
ghost use Rattle.h2_crash_rows.specs.Marks.{marks, first_forest};
ghost use Rattle.h2_crash_rows.specs.Mounts.{first_header, image_made, made, out_marks};
ghost use Rattle.h2_crash_rows.specs.Plan.{frozen, header_written, pieces_written};

/// Laws: header 1 stands; header 2 goes out at moment 10 and is done at 12, and header 3 goes out at 19. A cut lands on
/// the newest that is done or on the next one, if it is out, and on no other. The forests are those that were frozen.
pub fn worked_marks_law()
    ensures newest_first { newest_at 1 marks 11 ≡ 1 }
    ensures newest_second { newest_at 1 marks 12 ≡ 2 }
    ensures at_nine { (n : ℕ) → IsLanding 1 marks 9 n → n ≡ 1 }
    ensures at_ten_old { IsLanding 1 marks 10 1 }
    ensures at_ten_new { IsLanding 1 marks 10 2 }
    ensures at_ten { (n : ℕ) → IsLanding 1 marks 10 n → (n ≡ 1) ⊎ (n ≡ 2) }
    ensures at_twelve { (n : ℕ) → IsLanding 1 marks 12 n → n ≡ 2 }
    ensures at_twenty_old { IsLanding 1 marks 20 2 }
    ensures at_twenty_new { IsLanding 1 marks 20 3 }
    ensures at_twenty { (n : ℕ) → IsLanding 1 marks 20 n → (n ≡ 2) ⊎ (n ≡ 3) }
    ensures forest_one { IsFrozenForest first_forest marks 1 100 }
    ensures forest_two { IsFrozenForest first_forest marks 2 200 }
    ensures not_mixed { IsFrozenForest first_forest marks 2 100 → ⊥ }
    ensures none { (forest : ℕ) → IsFrozenForest first_forest marks 4 forest → ⊥ }
{}

/// Laws: the small format is lawful. One whose blocks lead on by the byte behind them isn't.
pub fn worked_format_law()
    ensures lawful { IsLawful toy }
    ensures not_local { IsLawful leading_past_end → ⊥ }
{}

/// Laws: in the small format, an image with header 1 and its block mounts that header; zeros have none. While a first
/// volume is made, an image without a header may be left at first, and one with the header from the moment on at which
/// its write begins.
pub fn worked_mounts_law()
    ensures newest { IsNewest toy image_made first_header }
    ensures none { HasNoHeader toy zeros }
    ensures block { ReachesByte toy image_made (65536 ∷ []) 65536 }
    ensures child { ReachesByte toy image_made (65536 ∷ []) 65543 }
    ensures completed { Mounts toy (Completed made) [] 0 image_made }
    ensures blank { Mounts toy (Blank zeros) [] 0 zeros }
    ensures out { Mounts toy (Blank zeros) out_marks 4 image_made }
    ensures too_early { Mounts toy (Blank zeros) out_marks 3 image_made → ⊥ }
{}

/// A law: the plan that `make` of `h2_checkpoint` asks for, so that a power cut leaves a volume or none, can be met. Over
/// zeros, the pieces and the header of the small volume are a plan of a first one.
pub fn worked_plan_law()
    ensures { IsFirstPlan toy frozen pieces_written 0 header_written zeros }
{}
