ghost use Rattle.std.specs.Prelude.{ℕ};
ghost use Rattle.h2_num.specs.Places.{Places};
ghost use Rattle.h2_freeleaf.specs.declared.fault.MapFault.TheVariants.{Padding};
ghost use Rattle.h2_freeleaf.specs.InImage.{SameMap};
ghost use Rattle.h2_freeleaf.specs.LeastPlace.{IsLeastOf, IsWrongInLeaf};
ghost use Rattle.h2_space_rows.specs.Marred.{marred_leaf};

/// Laws: of a leaf at place 4096 that has bytes 1 at 70 and 200, which must be zero, both are wrong, and byte 71 isn't. The
/// one at 200 isn't the least. An image has the map that it has.
pub fn worked_least_law()
    ensures first { IsWrongInLeaf 4096 marred_leaf 70 (Padding 4166) }
    ensures second { IsWrongInLeaf 4096 marred_leaf 200 (Padding 4296) }
    ensures not_wrong { IsWrongInLeaf 4096 marred_leaf 71 (Padding 4167) → ⊥ }
    ensures not_least { IsLeastOf (IsWrongInLeaf 4096 marred_leaf) (Padding 4296) → ⊥ }
    ensures same { (zones number : ℕ) (image : Places) → SameMap zones number image image }
{}
