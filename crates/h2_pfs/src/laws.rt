ghost use Rattle.std.specs.Prelude.{◌≡◌, ℕ, true, List, Option, Some};
ghost use Rattle.h2_num.specs.Places.{Places};
ghost use Rattle.h2_ref.specs.declared.reference.Ref.{Ref};
ghost use Rattle.h2_inode.specs.Following.{Follows};
ghost use Rattle.h2_inode.specs.Loaded.{View, TellsOn};
ghost use Rattle.h2_inode.specs.Others.{KeepsTrees, over_change};
ghost use Rattle.h2_pfs.specs.Others.{BelongsToNone, KeepsOtherTrees, IsOtherRoot};

/// A law of trees other than the super-root's. Where they are kept by a change of the list of PFSs, all but those that
/// belong to the leaf with this key, they name no others, and the reading after the change follows that before it. So
/// each of them stands for the file's bytes, the directory or the table that it stood for, whether nodes are loaded or
/// told.
pub fn others_law()
    ensures kept { (u v : View) (top key : ℕ) → BelongsToNone u.forest top
        → KeepsOtherTrees u v top (λ c. u.forest.belongs c top key ≡ true) → TellsOn u v
        → ((r : Ref) (name : List ℕ) → u.forest.name r ≡ Some name → v.forest.name r ≡ Some name)
        → KeepsTrees u v (IsOtherRoot u.forest top key) }
    ensures follows { (u v : View) (top key : ℕ) (block : Ref → Option Places) → BelongsToNone u.forest top
        → KeepsOtherTrees u v top (λ c. u.forest.belongs c top key ≡ true) → TellsOn u v
        → ((r : Ref) (name : List ℕ) → u.forest.name r ≡ Some name → v.forest.name r ≡ Some name)
        → Follows (over_change u v (IsOtherRoot u.forest top key) (λ r b. block r ≡ Some b)) }
{}
