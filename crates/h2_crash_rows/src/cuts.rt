ghost use Rattle.std.specs.Prelude.{◌≡◌, ℕ, [], ◌∷◌};
ghost use Rattle.h2_num.specs.Places.{Places, places};
ghost use Rattle.h2_disk.specs.Trace.{Opened, Wrote, latest, up_to, durable, Appeared, LeftAt, KeepsDurable, IsDurable};
ghost use Rattle.h2_crash_rows.specs.Cuts.{zeros, image_synced, synced, unsynced, again, two_bytes, one_byte};

/// Laws: 1 was written at place 2 and synced by moment 3, and 5 and 6 at places 2 and 3 at moment 4. A cut then leaves the
/// old bytes, the new ones, one of them, or others, but no other byte is changed; before moment 4 it leaves the old ones,
/// and before the sync was done 0 or 1, among others. Where the durable byte was written again it stays.
pub fn worked_cuts_law()
    ensures moments { up_to 3 unsynced ≡ synced }
    ensures earlier { up_to 2 unsynced ≡ Wrote 1 2 (1 ∷ []) (Opened zeros) }
    ensures all_by { latest unsynced ≡ 4 }
    ensures synced_bytes { (k : ℕ) → durable unsynced k ≡ image_synced k }
    ensures is_durable { IsDurable synced image_synced }
    ensures not_durable { (image : Places) → IsDurable unsynced image → ⊥ }
    ensures old { LeftAt unsynced 4 image_synced }
    ensures new { LeftAt unsynced 4 (places (0 ∷ 0 ∷ 5 ∷ 6 ∷ [])) }
    ensures torn { LeftAt unsynced 4 (places (0 ∷ 0 ∷ 5 ∷ [])) }
    ensures others { LeftAt unsynced 4 (places (0 ∷ 0 ∷ 9 ∷ 9 ∷ [])) }
    ensures elsewhere { LeftAt unsynced 4 (places (0 ∷ 7 ∷ [])) → ⊥ }
    ensures too_early { LeftAt unsynced 3 (places (0 ∷ 0 ∷ 5 ∷ [])) → ⊥ }
    ensures before_sync { LeftAt unsynced 2 zeros }
    ensures before_sync_new { LeftAt unsynced 2 image_synced }
    ensures kept { KeepsDurable again image_synced }
    ensures not_kept { KeepsDurable again zeros → ⊥ }
    ensures changed { KeepsDurable unsynced (places (0 ∷ 0 ∷ 5 ∷ [])) }
{}

/// Laws: two bytes that were written over zeros as a whole appear whole or not at all; where one byte was written, the
/// two may hold anything.
pub fn worked_headers_law()
    ensures whole { Appeared 0 2 two_bytes (places (5 ∷ 6 ∷ [])) }
    ensures old { Appeared 0 2 two_bytes zeros }
    ensures torn { Appeared 0 2 two_bytes (places (5 ∷ [])) → ⊥ }
    ensures part { Appeared 0 2 one_byte (places (9 ∷ 9 ∷ [])) }
    ensures beside { Appeared 2 2 two_bytes (places (5 ∷ 6 ∷ [])) → ⊥ }
{}
