ghost use Rattle.std.specs.Prelude.{◌≡◌, ◌≤◌, ℕ, List, length, take, Option, Some};
ghost use Rattle.h2_num.specs.Places.{Places};
ghost use Rattle.h2_ref.specs.declared.reference.Ref.{Ref};
ghost use Rattle.h2_inode.specs.declared.inode.Body.{Body};
ghost use Rattle.h2_inode.specs.Nodes.{NamesOne};
ghost use Rattle.h2_inode.specs.Embedded.{EmbedsBytes, HasBytes};
ghost use Rattle.h2_inode.specs.Loaded.{Tree, View, reading};

/// A law of the bytes of a file: a body that is long enough embeds its first bytes and no other ones. Where each leaf
/// names one root at most and blocks have one contents at most, a body has one list of bytes at most.
pub fn bytes_law()
    ensures first { (size : ℕ) (body : List ℕ) → size ≤ length body → EmbedsBytes size body (take size body) }
    ensures embedded { (size : ℕ) (body b c : List ℕ) → EmbedsBytes size body b → EmbedsBytes size body c → c ≡ b }
    ensures one { (u : View) (block : Ref → Option Places) (t : Tree) (size : ℕ) (body : Body) (b c : List ℕ) → NamesOne u.forest
        → HasBytes (reading u (λ r x. block r ≡ Some x)) t size body b → HasBytes (reading u (λ r x. block r ≡ Some x)) t size body c → c ≡ b }
{}
