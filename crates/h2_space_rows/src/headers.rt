ghost use Rattle.h2_header.specs.Newest.{HasHeader, IsNewestOf, NoneOf};
ghost use Rattle.h2_space_rows.specs.Headers.{header_of, four_slots, tied_slots, empty_slots};

/// Laws: of headers 5, none, 7 and 6 the newest is in slot 2, and of the first two slots in slot 0. Neither an older one
/// nor an empty slot is the newest. Where two have the same number, the first is. Empty slots have none.
pub fn worked_newest_law()
    ensures has { HasHeader four_slots 2 (header_of 7) }
    ensures newest { IsNewestOf 4 four_slots 2 }
    ensures of_two { IsNewestOf 2 four_slots 0 }
    ensures not_older { IsNewestOf 4 four_slots 3 → ⊥ }
    ensures not_empty { IsNewestOf 4 four_slots 1 → ⊥ }
    ensures first_of_same { IsNewestOf 4 tied_slots 1 }
    ensures not_second_of_same { IsNewestOf 4 tied_slots 2 → ⊥ }
    ensures none { NoneOf 4 empty_slots }
    ensures not_none { NoneOf 4 four_slots → ⊥ }
{}
