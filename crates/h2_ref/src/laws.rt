ghost use Rattle.std.specs.Prelude.{◌≡◌, Some, None};
ghost use Rattle.h2_num.specs.Places.{Places, AreBytes, SameBelow};
ghost use Rattle.h2_ref.specs.Ref.{RefBytes, IsValid, NoRef};
ghost use Rattle.h2_ref.specs.Fault.{first_fault};
ghost use Rattle.h2_ref.specs.FaultLaws.{IsSpelled};
ghost use Rattle.h2_ref.specs.declared.faults.RefFault.{RefFault};
ghost use Rattle.h2_ref.specs.declared.reference.Ref.{Ref};

/// A law: a reference has one spelling, bytes spell one valid reference at most, and which one is seen
/// by their first 128 alone.
pub fn spelling_law()
    ensures one_spelling { (r : Ref) (a b : Places) → AreBytes a → AreBytes b
        → RefBytes r a → RefBytes r b → SameBelow 128 a b }
    ensures one_value { (r s : Ref) (b : Places) → IsValid r → IsValid s
        → RefBytes r b → RefBytes s b → s ≡ r }
    ensures local { (r : Ref) (a b : Places) → SameBelow 128 a b → RefBytes r a → RefBytes r b }
{}

/// A law: bytes meet a refusal exactly where they spell no valid reference.
pub fn refusal_law()
    ensures refused { (b : Places) (fault : RefFault) → first_fault b ≡ Some fault → NoRef b }
    ensures spelled { (b : Places) → AreBytes b → first_fault b ≡ None → IsSpelled b }
{}
