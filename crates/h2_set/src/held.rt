//! Which references a set may hold.
ghost use Rattle.std.specs.Prelude.{◌≡◌, ◌↔◌, IsTrue};
ghost use Rattle.h2_set.specs.SetBytes.{IsHeld};
ghost use Rattle.h2_set.specs.HeldTest.{passes_as_held};

use h2_ref::{Kind, Ref};

// Whether the reference is valid and names something. A function of its own for the proof: `is_held` states the same in
// two ways, and each is proved of this answer, not of the two tests.
fn is_valid_and_named(r: &Ref) -> bool
    ensures { IsTrue result ↔ IsHeld r.now }
{
    r.valid() && r.kind != Kind::Empty
}

/// Whether a set may hold the reference: it is valid, and names something.
pub fn is_held(r: &Ref) -> bool
    ensures fact { IsTrue result ↔ IsHeld r.now }
    ensures test { result ≡ passes_as_held r.now }
{
    is_valid_and_named(r)
}
