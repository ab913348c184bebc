ghost use Rattle.std.specs.Prelude.{◌≡◌, ◌↔◌, ◌<◌, true, All, IsTrue};
ghost use Rattle.h2_set.specs.Ranges.{lies};
ghost use Rattle.h2_inode.specs.Block.{IsArranged, Falls};

use h2_ref::{Kind, Ref};
use h2_set::Set;

/// Whether the range of `s` lies in that of `r`.
fn lies_within(r: &Ref, s: &Ref) -> bool
    requires { r.now.keybits < 64 }
    ensures { result ≡ lies r.now.key r.now.keybits s.now }
{
    if s.key < r.key {
        return false;
    }
    if s.keybits > r.keybits {
        return false;
    }
    s.key - r.key <= (1u64 << r.keybits) - (1u64 << s.keybits)
}

/// Whether `s` may stand below `r` by its keybits: an indirect reference has fewer.
fn falls(r: &Ref, s: &Ref) -> bool
    ensures { IsTrue result ↔ Falls r.now s.now }
{
    s.kind != Kind::Indirect || s.keybits < r.keybits
}

/// Whether the block of the indirect reference `r` may hold `s`.
fn may_hold(r: &Ref, s: &Ref) -> bool
    requires { r.now.keybits < 64 }
    ensures { IsTrue result ↔ ((lies r.now.key r.now.keybits s.now ≡ true) × Falls r.now s.now) }
{
    lies_within(r, s) && falls(r, s)
}

/// Whether the block of the indirect reference `r` may hold all references of the set.
fn may_hold_all(r: &Ref, set: &Set) -> bool
    requires { r.now.keybits < 64 }
    ensures { IsTrue result ↔ All (λ s. (lies r.now.key r.now.keybits s ≡ true) × Falls r.now s) set.now.refs }
{
    for i in 0..set.len() {
        if !may_hold(r, set.at(i)) {
            return false;
        }
    }
    true
}

/// Whether the block of the indirect reference `r` may hold this set, which isn't empty then.
pub fn is_arranged(r: &Ref, set: &Set) -> bool
    requires { r.now.keybits < 64 }
    ensures { IsTrue result ↔ IsArranged r.now set.now.refs }
{
    if set.len() == 0 {
        return false;
    }
    may_hold_all(r, set)
}
