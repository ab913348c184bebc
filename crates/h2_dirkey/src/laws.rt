ghost use Rattle.std.specs.Prelude.{◌≡◌, ◌≤◌, ◌<◌, ◌/◌, ◌^◌, ℕ, List, Contains};
ghost use Rattle.h2_num.specs.Places.{Places, SameBelow};
ghost use Rattle.h2_dirkey.specs.Name.{IsName, IsFaultOf};
ghost use Rattle.h2_dirkey.specs.Key.{least_key, upper_bits, IsPicked};
ghost use Rattle.h2_dirkey.specs.Block.{NameBytes};
ghost use Rattle.h2_dirkey.specs.declared.name_fault.NameFault.{NameFault};

/// A law: a good name has no fault, and another name has one at most. So what `check_name` answers
/// follows from the name.
pub fn name_law()
    ensures no_fault { (name : List ℕ) (fault : NameFault) → IsName name → IsFaultOf name fault → ⊥ }
    ensures one_fault { (name : List ℕ) (fault other : NameFault) → IsFaultOf name fault
        → IsFaultOf name other → other ≡ fault }
{}

/// A law: the keys of a name have 64 bits, of which the first is set, and a key that was picked from the
/// least one has its upper bits.
pub fn key_law()
    ensures low { (name : List ℕ) → 2 ^ 48 ≤ upper_bits name }
    ensures high { (name : List ℕ) → upper_bits name < 2 ^ 49 }
    ensures picked { (name used : List ℕ) (key : ℕ) → IsPicked (least_key name) used key
        → key / 2 ^ 15 ≡ upper_bits name }
{}

/// A law: a long name has one block, a block is that of one name without zero bytes at most, and which
/// one is seen by its 1024 bytes alone.
pub fn block_law()
    ensures one_spelling { (name : List ℕ) (a b : Places) → NameBytes name a → NameBytes name b
        → SameBelow 1024 a b }
    ensures one_value { (m n : List ℕ) (b : Places) → (Contains m 0 → ⊥) → (Contains n 0 → ⊥)
        → NameBytes m b → NameBytes n b → n ≡ m }
    ensures local { (name : List ℕ) (a b : Places) → SameBelow 1024 a b → NameBytes name a → NameBytes name b }
{}
