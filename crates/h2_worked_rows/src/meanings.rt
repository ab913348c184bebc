ghost use Rattle.std.specs.Prelude.{◌≡◌, [], ◌∷◌};
ghost use Rattle.std.specs.FinMap.{empty};
ghost use Rattle.h2_inode.specs.declared.inode.Body.TheVariants.{Bytes};
ghost use Rattle.h2_inode.specs.Embedded.{HasBytes};
ghost use Rattle.h2_forest.specs.declared.table.Node.TheVariants.{File, Directory};
ghost use Rattle.h2_meaning.specs.Forest.{listed_of};
ghost use Rattle.h2_meaning.specs.Replaced.{SameKind, with_pfs};
ghost use Rattle.h2_meaning.specs.Example.{new_volume};
ghost use Rattle.h2_worked_rows.specs.Forests.{pfs_of, two_pfss};

/// Laws: a PFS of a forest is replaced by the one with its id, and by no other. What a list of PFSs tells of a PFS is its
/// id, its name and its next inode number. Two files are of one kind, a file and a directory aren't.
pub fn worked_replaced_law()
    ensures second { with_pfs (two_pfss (pfs_of 1 97 3 empty ∷ pfs_of 4 98 3 empty ∷ []) 5) (pfs_of 4 98 7 empty) ≡ two_pfss (pfs_of 1 97 3 empty ∷ pfs_of 4 98 7 empty ∷ []) 5 }
    ensures none { with_pfs (two_pfss (pfs_of 1 97 3 empty ∷ []) 5) (pfs_of 4 98 7 empty) ≡ two_pfss (pfs_of 1 97 3 empty ∷ []) 5 }
    ensures listed { listed_of (pfs_of 4 98 7 empty) ≡ record { id = 4; name = 98 ∷ []; next = 7 } }
    ensures files { SameKind (File [] 1) (File (5 ∷ []) 2) }
    ensures not_alike { SameKind (File [] 1) (Directory empty) → ⊥ }
{}

/// Laws: a file of three bytes that stand in its inode, with a zero behind them, has these bytes, and no fewer.
pub fn worked_embedded_law()
    ensures three { HasBytes new_volume 2 3 (Bytes (5 ∷ 6 ∷ 7 ∷ 0 ∷ [])) (5 ∷ 6 ∷ 7 ∷ []) }
    ensures not_two { HasBytes new_volume 2 3 (Bytes (5 ∷ 6 ∷ 7 ∷ 0 ∷ [])) (5 ∷ 6 ∷ []) → ⊥ }
    ensures not_other { HasBytes new_volume 2 3 (Bytes (5 ∷ 6 ∷ 7 ∷ 0 ∷ [])) (5 ∷ 6 ∷ 8 ∷ []) → ⊥ }
{}
