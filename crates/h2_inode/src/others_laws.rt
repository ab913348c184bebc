ghost use Rattle.std.specs.Prelude.{◌≡◌, ℕ, Bool, true, false, List, Option, Some};
ghost use Rattle.h2_num.specs.Places.{Places};
ghost use Rattle.h2_ref.specs.declared.reference.Ref.{Ref};
ghost use Rattle.h2_set.specs.Forest.{Forest, IsSound};
ghost use Rattle.h2_set.specs.Calls.{names_node};
ghost use Rattle.h2_inode.specs.declared.inode.Inode.{Inode};
ghost use Rattle.h2_inode.specs.Nodes.{IsUnloaded, IsBare};
ghost use Rattle.h2_inode.specs.Contents.{IsContents};
ghost use Rattle.h2_inode.specs.Directory.{Entries, IsDirectory};
ghost use Rattle.h2_inode.specs.Following.{Follows};
ghost use Rattle.h2_inode.specs.Loaded.{Tree, at_root, NamesInode, IsLeafOf, View, TellsOn, reading, no_content};
ghost use Rattle.h2_inode.specs.Others.{KeepsTree, RenewsTree, RenewsOthers, KeepsTrees, over_change, RenewsTrees, over_renewal};

/// A law of trees that a change of another one keeps, or renews, so that their references tell of other blocks of
/// inodes and indirect blocks. A tree that is kept is renewed, and both are so over changes one after the other. A
/// renewed tree stands for the file's bytes and the directory's entries that it stood for. Where kept trees name no
/// others, the reading after the change follows that before it, so that tables and forests stand for the same too. So
/// it does where they are renewed. In a sound forest nothing is loaded of an inode whose root isn't. A leaf of a renewed
/// tree of whose inode nothing was loaded is the very same after the change, and what was told of its inode is read of
/// it then.
pub fn others_law()
    ensures kept { (u v w : View) (c : ℕ) → KeepsTree u v c → KeepsTree v w c → KeepsTree u w c }
    ensures renewed { (u v w : View) (c : ℕ) → RenewsTree u v c → RenewsTree v w c → RenewsTree u w c }
    ensures others { (u v w : View) (at : ℕ) → RenewsOthers u v at → RenewsOthers v w at → RenewsOthers u w at }
    ensures renews { (u v : View) (c : ℕ) → KeepsTree u v c → RenewsTree u v c }
    ensures contents { (u v : View) (block : Ref → Option Places) (c size : ℕ) (bytes : List ℕ) → RenewsTree u v c
        → IsContents (reading u (λ r b. block r ≡ Some b)) (at_root c) size bytes
        → IsContents (reading v (λ r b. block r ≡ Some b)) (at_root c) size bytes }
    ensures directories { (u v : View) (may : ℕ → ℕ → Bool) (c size : ℕ) (entries : Entries) → RenewsTree u v c
        → ((r : Ref) (name : List ℕ) → u.forest.name r ≡ Some name → v.forest.name r ≡ Some name)
        → IsDirectory (reading u no_content) (λ target number. may target number ≡ true) (at_root c) size entries
        → IsDirectory (reading v no_content) (λ target number. may target number ≡ true) (at_root c) size entries }
    ensures bare { (f : Forest) (c key : ℕ) → IsSound f → IsUnloaded f c key → IsBare f c key }
    ensures unloaded { (u v : View) (c : ℕ) (r : Ref) (i : Inode) (t : Tree) → RenewsTree u v c → TellsOn u v
        → IsBare u.forest c r.key → IsLeafOf u (at_root c) r
        → NamesInode u.forest u.holds u.tells (at_root c) r i t
        → IsLeafOf v (at_root c) r × NamesInode v.forest v.holds v.tells (at_root c) r i t }
    ensures renewals { (u v : View) (stay : ℕ → Bool) (block : Ref → Option Places)
        → RenewsTrees u v (λ m. stay m ≡ true)
        → ((r : Ref) (b : Places) → block r ≡ Some b → names_node r.kind ≡ false)
        → Follows (over_renewal u v (λ m. stay m ≡ true) (λ r b. block r ≡ Some b)) }
    ensures follows { (u v : View) (stay : ℕ → Bool) (block : Ref → Option Places) → KeepsTrees u v (λ m. stay m ≡ true)
        → Follows (over_change u v (λ m. stay m ≡ true) (λ r b. block r ≡ Some b)) }
{}
