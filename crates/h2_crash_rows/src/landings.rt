ghost use Rattle.std.specs.Prelude.{◌≡◌, [], ◌∷◌};
ghost use Rattle.h2_checkpoint.specs.Checkpoint.{Blank, Completed, Writing, Blocks_synced, Header_written, Lands, LandsOn, entries_left};
ghost use Rattle.h2_checkpoint.specs.Queue.{AreApart};
ghost use Rattle.h2_checkpoint.specs.Toy.{toy};
ghost use Rattle.h2_crash_rows.specs.Cuts.{zeros};
ghost use Rattle.h2_crash_rows.specs.Landings.{two_at};
ghost use Rattle.h2_crash_rows.specs.Mounts.{image_made, made};
ghost use Rattle.h2_crash_rows.specs.VolumeCuts.{with_block};

use crate::mounts::worked_mounts_law;

/// Laws: an image with header 1 and its block lands on the checkpoint of that header. One with another byte in the block
/// doesn't, and nor do zeros; these land where there is no checkpoint yet, and the image with the header doesn't.
pub fn worked_landings_law()
    ensures lands { Lands toy made image_made }
    ensures on_completed { LandsOn toy (Completed made) image_made }
    ensures on_blank { LandsOn toy (Blank zeros) zeros }
    ensures other_block { Lands toy made (with_block 8) → ⊥ }
    ensures no_header { LandsOn toy (Completed made) zeros → ⊥ }
    ensures not_blank { LandsOn toy (Blank zeros) image_made → ⊥ }
{
    worked_mounts_law();
}

/// Laws: two bytes that go to place 2 and two that go to place 4 share none, and two that go to place 3 share one of the
/// first. Only before the sync of the blocks are entries left.
pub fn worked_queues_law()
    ensures apart { AreApart (two_at 2 ∷ two_at 4 ∷ []) }
    ensures not_apart { AreApart (two_at 2 ∷ two_at 3 ∷ []) → ⊥ }
    ensures not_third { AreApart (two_at 2 ∷ two_at 4 ∷ two_at 5 ∷ []) → ⊥ }
    ensures none { AreApart [] }
    ensures left { entries_left (Writing (two_at 2 ∷ two_at 4 ∷ [])) ≡ two_at 2 ∷ two_at 4 ∷ [] }
    ensures synced { entries_left Blocks_synced ≡ [] }
    ensures sent { entries_left Header_written ≡ [] }
{}
