ghost use Rattle.std.specs.Prelude.{[], ◌∷◌};
ghost use Rattle.std.specs.FinMap.{empty};
ghost use Rattle.h2_forest.specs.Ids.{IdsAscend, IsBelowNext, NamesDiffer, NamesAreGood, NumbersBelow};
ghost use Rattle.h2_consistent.specs.Consistent.{IsConsistent, AreConsistent};
ghost use Rattle.h2_consistent.specs.Example.{two_names, names_nothing};
ghost use Rattle.h2_worked_rows.specs.Forests.{pfs_of, two_pfss, one_file, forest_of};

use h2_consistent::example_law;

/// Laws: a forest whose PFS has a file with two names and two links is consistent. With one link it isn't, nor is one
/// where another PFS has an entry that names nothing, or where the next inode number is one in use.
pub fn worked_forests_law()
    ensures consistent { AreConsistent (forest_of (pfs_of 1 97 3 (two_names 2)) empty) }
    ensures none { AreConsistent (two_pfss [] 3) }
    ensures wrong_links { AreConsistent (forest_of (pfs_of 1 97 3 (two_names 1)) empty) → ⊥ }
    ensures second_wrong { AreConsistent (two_pfss (pfs_of 1 97 3 (two_names 2) ∷ pfs_of 2 98 3 names_nothing ∷ []) 3) → ⊥ }
    ensures next_in_use { IsConsistent (pfs_of 1 97 2 (two_names 2)) → ⊥ }
{
    example_law();
}

/// Laws: two PFSs with the ids 1 and 4 and the names a and b stand in order where the next id is 5, and don't where it
/// is 4, or the other way round. Their names differ, and a slash is no good one. A file of number 2 is below the next
/// number 3 and not below 2.
pub fn worked_names_law()
    ensures ascend { IdsAscend (two_pfss (pfs_of 1 97 3 empty ∷ pfs_of 4 98 3 empty ∷ []) 5) }
    ensures next_taken { IdsAscend (two_pfss (pfs_of 1 97 3 empty ∷ pfs_of 4 98 3 empty ∷ []) 4) → ⊥ }
    ensures turned { IdsAscend (two_pfss (pfs_of 4 97 3 empty ∷ pfs_of 1 98 3 empty ∷ []) 5) → ⊥ }
    ensures differ { NamesDiffer (two_pfss (pfs_of 1 97 3 empty ∷ pfs_of 4 98 3 empty ∷ []) 5) }
    ensures same_name { NamesDiffer (two_pfss (pfs_of 1 97 3 empty ∷ pfs_of 4 97 3 empty ∷ []) 5) → ⊥ }
    ensures good { NamesAreGood (two_pfss (pfs_of 1 97 3 empty ∷ pfs_of 4 57 3 empty ∷ []) 5) }
    ensures slash { NamesAreGood (two_pfss (pfs_of 1 97 3 empty ∷ pfs_of 4 47 3 empty ∷ []) 5) → ⊥ }
    ensures below { NumbersBelow (forest_of (pfs_of 1 97 3 (one_file 1)) empty) }
    ensures not_below { NumbersBelow (forest_of (pfs_of 1 97 2 (one_file 1)) empty) → ⊥ }
    ensures below_alone { IsBelowNext (pfs_of 1 97 0 empty) }
{}
