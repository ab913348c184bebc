ghost use Rattle.h2_disk.specs.Pages.{HasPages, HasPagesBetween};
ghost use Rattle.h2_crash_rows.specs.Pages.{two_pages};

/// Laws: where pages 1 and 2 of 16384 bytes are kept, those of two bytes across their border are, and those of a byte in
/// page 3 or in page 0 aren't.
pub fn worked_pages_law()
    ensures between { HasPagesBetween two_pages 1 3 }
    ensures none_between { HasPagesBetween two_pages 3 3 }
    ensures not_third { HasPagesBetween two_pages 1 4 → ⊥ }
    ensures not_first { HasPagesBetween two_pages 0 3 → ⊥ }
    ensures across { HasPages two_pages 32767 2 }
    ensures past { HasPages two_pages 49151 2 → ⊥ }
{}
