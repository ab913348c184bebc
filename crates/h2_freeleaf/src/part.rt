ghost use Rattle.std.specs.Prelude.{◌≡◌, ◌<◌};
ghost use Rattle.h2_num.specs.Places.{places, SameBelow};
ghost use Rattle.h2_freeleaf.specs.Leaf.{part_of};

use crate::layout::{MAP_BYTES, PART_BYTES};

/// Part number i of a block, of the eight.
pub(crate) fn part_of(b: &[u8; MAP_BYTES], i: usize) -> &[u8; PART_BYTES]
    requires { i < 8 }
    ensures { SameBelow 128 (places result.now) (part_of i (places b.now)) }
{
    let Some(part) = b[PART_BYTES * i..].first_chunk::<PART_BYTES>() else {
        unreachable!();
    };
    part
}
