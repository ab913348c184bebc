ghost use Rattle.std.specs.Prelude.{◌≡◌, ◌<◌, ◌+◌, MatchOption, length};
ghost use Rattle.h2_header.specs.Newest.{IsNewestOf, NoneOf};

use crate::header::{Header, SLOTS};

/// The newest of one slot more, where `so_far` is the newest of the slots before it.
fn newer(h: &[Option<Header>; SLOTS], so_far: Option<usize>, slot: usize) -> Option<usize>
    requires slot { slot < 4 }
    requires so_far { MatchOption so_far (NoneOf slot h.now) (IsNewestOf slot h.now) }
    ensures { MatchOption result (NoneOf (slot + 1) h.now) (IsNewestOf (slot + 1) h.now) }
{
    let Some(header) = &h[slot] else {
        return so_far;
    };
    let Some(before) = so_far else {
        return Some(slot);
    };
    let Some(other) = &h[before] else {
        unreachable!();
    };
    if other.number < header.number {
        Some(slot)
    } else {
        so_far
    }
}

/// The slot whose header has the greatest number, and the first such slot where several have it; None
/// exactly where no slot has a header.
///
/// Headers that were read from their slots have different numbers, since a number has its slot.
pub fn newest(h: &[Option<Header>; SLOTS]) -> Option<usize>
    ensures { MatchOption result (NoneOf 4 h.now) (IsNewestOf 4 h.now) }
{
    let mut so_far = None;
    for slot in 0..SLOTS {
        so_far = newer(h, so_far, slot);
    }
    so_far
}
