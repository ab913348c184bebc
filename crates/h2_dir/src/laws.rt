ghost use Rattle.std.specs.Prelude.{◌≡◌, ℕ, Bool, List, Option, Some, None};
ghost use Rattle.std.specs.FinMap.{get};
ghost use Rattle.h2_ref.specs.declared.reference.Dirent.{Dirent};
ghost use Rattle.h2_ref.specs.declared.reference.Ref.{Ref};
ghost use Rattle.h2_set.specs.Forest.{Forest};
ghost use Rattle.h2_inode.specs.Nodes.{Fields, Told};
ghost use Rattle.h2_inode.specs.Directory.{Entries};
ghost use Rattle.h2_dir.specs.Finding.{HoldsEntries, IsFound, IsMissing};

/// A law: what was found agrees with the entries of the directory, where they are known. An entry that was found under
/// a name says the name's number, and a name that is missing has none. So it is of each directory on the way of a walk.
pub fn found_law()
    ensures found { (f : Forest) (holds : ℕ → Option Fields) (tells : Ref → Option Told) (may : ℕ → ℕ → Bool) (dir size : ℕ) (entries : Entries) (name : List ℕ) (key : ℕ) (entry : Dirent)
        → IsFound f dir name key entry → HoldsEntries f holds tells may dir size entries → get entries name ≡ Some entry.number }
    ensures missing { (f : Forest) (holds : ℕ → Option Fields) (tells : Ref → Option Told) (may : ℕ → ℕ → Bool) (dir size : ℕ) (entries : Entries) (name : List ℕ)
        → IsMissing f dir name → HoldsEntries f holds tells may dir size entries → get entries name ≡ None }
{}
