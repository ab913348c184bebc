ghost use Rattle.std.specs.Prelude.{◌↔◌, All, IsTrue};
ghost use Rattle.h2_ref.specs.Ref.{IsValid};
ghost use Rattle.h2_ref.specs.Set.{IsSet, MayFollow};

use crate::reference::{Kind, Ref};

/// Whether a valid reference may stand right after another in a set: its range begins at the other's end or
/// later, or it is empty.
pub fn may_follow(r: &Ref, s: &Ref) -> bool
    requires { IsValid r.now }
    ensures { IsTrue result ↔ MayFollow r.now s.now }
{
    s.kind == Kind::Empty
        || r.kind != Kind::Empty && r.key <= s.key && s.key - r.key >= 1 << r.keybits
}

/// Whether valid references are a set: first references whose ranges of keys ascend and are disjoint, and
/// then empty ones.
pub fn is_set(refs: &[Ref]) -> bool
    requires { All IsValid refs.now }
    ensures { IsTrue result ↔ IsSet refs.now }
{
    for i in 1..refs.len() {
        if !may_follow(&refs[i - 1], &refs[i]) {
            return false;
        }
    }
    true
}
