ghost use Rattle.std.specs.Prelude.{◌≡◌, ◌<◌, ◌≤◌, ◌*◌, ◌+◌, ℕ, All, length, slice_get, Some};
ghost use Rattle.h2_num.specs.Places.{places};
ghost use Rattle.h2_ref.specs.Ref.{RefBytes, IsValid, empty_ref};
ghost use Rattle.h2_set.specs.RefSet.{RefSet};
ghost use Rattle.h2_set.specs.SetBytes.{IsHeld, SetBytes, slot};
ghost use Rattle.h2_set.specs.Front.{AreWritten, WritesSlot};

use crate::set::Set;
use h2_num::put_bytes;
use h2_ref::{REF_BYTES, Ref, encode};

/// Writes a reference to a place of the set.
fn put_slot(out: &mut [u8], i: usize, r: &Ref)
    requires valid { IsValid r.now }
    requires within { 128 * i + 128 ≤ length out.old }
    ensures { WritesSlot r.now i (places out.old) (places out.new) }
{
    put_bytes(out, REF_BYTES * i, &encode(r));
}

/// Writes the bytes of a set: its references in order, and then empty ones. Each of its references is valid
/// and none is empty, and `out` has 128 bytes for each that the set has room for.
pub fn encode_set(s: &Set, out: &mut [u8])
    requires held { All IsHeld s.now.refs }
    requires room { length out.old ≡ 128 * s.now.capacity }
    ensures { SetBytes s.now.capacity s.now.refs (places out.new) }
{
    for i in 0..s.len() {
        put_slot(out, i, s.at(i));
    }
    for i in s.len()..s.capacity() as usize {
        put_slot(out, i, &Ref::empty());
    }
}
