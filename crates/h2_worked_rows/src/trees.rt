ghost use Rattle.std.specs.Prelude.{[], ◌∷◌, ℕ, Option, Some, None};
ghost use Rattle.h2_num.specs.Places.{places};
ghost use Rattle.h2_ref.specs.declared.reference.Ref.{Ref};
ghost use Rattle.h2_set.specs.Forest.{LeavesOf, Reaches, IsRootOf, IsOfInode};
ghost use Rattle.h2_inode.specs.Nodes.{Fields, Told, NamesOne, IsUnloaded, IsBare};
ghost use Rattle.h2_file.specs.FileContents.{FileHas};
ghost use Rattle.h2_pfs.specs.Others.{IsOtherRoot};
ghost use Rattle.h2_worked_rows.specs.Refs.{fifth_leaf};
ghost use Rattle.h2_worked_rows.specs.Trees.{two_roots};

/// Laws: of two trees, that of a PFS and that of its inode 5, the first has the leaf of the inode alone, by a loaded path,
/// and none with key 6. Root 1 is that of inode 5, and of no other; it belongs to that leaf. Of inode 6 nothing is
/// loaded, and of inode 5 something is. Each leaf names one root at most.
pub fn worked_roots_law()
    ensures leaves { LeavesOf two_roots 0 (fifth_leaf ∷ []) }
    ensures reaches { Reaches two_roots 5 0 (Some fifth_leaf) }
    ensures nowhere { Reaches two_roots 6 0 None }
    ensures root { IsRootOf two_roots 0 5 1 }
    ensures not_sixth { IsRootOf two_roots 0 6 1 → ⊥ }
    ensures not_itself { IsRootOf two_roots 0 5 0 → ⊥ }
    ensures of_inode { IsOfInode two_roots 1 0 5 }
    ensures unloaded { IsUnloaded two_roots 0 6 }
    ensures not_unloaded { IsUnloaded two_roots 0 5 → ⊥ }
    ensures bare { IsBare two_roots 0 6 }
    ensures not_bare { IsBare two_roots 0 5 → ⊥ }
    ensures one { NamesOne two_roots }
{}

/// Laws: what a change of inode 6 leaves alone of the trees beside that of its PFS is root 1, which a change of inode 5
/// doesn't; and no root is another than itself.
pub fn worked_other_law()
    ensures other { IsOtherRoot two_roots 0 6 1 }
    ensures not_fifth { IsOtherRoot two_roots 0 5 1 → ⊥ }
    ensures not_itself { IsOtherRoot two_roots 1 6 1 → ⊥ }
    ensures not_there { IsOtherRoot two_roots 0 6 2 → ⊥ }
{}

/// Laws: where each block holds a 9 and then zeros, root 1 stands for the file of this one byte, and for no file of two
/// bytes or of another byte.
pub fn worked_file_law()
    ensures file { (inodes : ℕ → Option Fields) (tells : Ref → Option Told) → FileHas two_roots inodes tells (λ r. Some (places (9 ∷ []))) 1 1 (9 ∷ []) }
    ensures not_longer { (inodes : ℕ → Option Fields) (tells : Ref → Option Told) → FileHas two_roots inodes tells (λ r. Some (places (9 ∷ []))) 1 2 (9 ∷ []) → ⊥ }
{}
