ghost use Rattle.std.specs.Prelude.{◌≡◌, ◌⊎◌, ◌↔◌, ◌<◌, ◌≤◌, ◌^◌, ℕ, Bool, true, false, List, [], ◌∷◌, Option, Some};
ghost use Rattle.std.specs.FinMap.{empty};
ghost use Rattle.h2_num.specs.Places.{Places};
ghost use Rattle.h2_ref.specs.declared.reference.Kind.TheVariants.{Inode as Inode_kind};
ghost use Rattle.h2_ref.specs.declared.reference.Ref.{Ref};
ghost use Rattle.h2_set.specs.Ranges.{limit};
ghost use Rattle.h2_set.specs.RefSet.{RefSet};
ghost use Rattle.h2_set.specs.declared.set.Split.{Split};
ghost use Rattle.h2_set.specs.Forest.{Forest, LeavesOf, KeepsLeaves, IsSound, IsRootOf};
ghost use Rattle.h2_set.specs.Calls.{Walks, ReadiesOnly, Alters, Stores, Makes};
ghost use Rattle.h2_dirkey.specs.PfsName.{IsPfsName};
ghost use Rattle.h2_inode.specs.declared.kind.InodeKind.TheVariants.{Pfs as Pfs_kind};
ghost use Rattle.h2_inode.specs.declared.inode.Inode.{Inode};
ghost use Rattle.h2_inode.specs.Block.{refs_of_body};
ghost use Rattle.h2_inode.specs.Nodes.{Fields, Told, HasInode, IsInodeLeaf, NamesOne, IsUnloaded, IsAsTold, Seeks, Plants, Replaces, Visits};
ghost use Rattle.h2_inode.specs.declared.inode.Body.{Body};
ghost use Rattle.h2_inode.specs.Contents.{IsContents};
ghost use Rattle.h2_inode.specs.Embedded.{HasBytes};
ghost use Rattle.h2_inode.specs.ContentsApart.{over_contents};
ghost use Rattle.h2_inode.specs.Directory.{Entries, IsDirectory};
ghost use Rattle.h2_inode.specs.PfsList.{ListedPfs, IsPfsList};
ghost use Rattle.h2_inode.specs.Loaded.{Tree, at_root, NamesInode, View, reading, no_content, IsSameTree, HoldsOn, HoldsBut, TellsOn, Rereads, StandsAlike, over_loads};
ghost use Rattle.h2_inode.specs.Following.{Follows};
ghost use Rattle.h2_inode.specs.Single.{IsSingle};
ghost use Rattle.h2_inode.specs.LoadedExample.{listed};

/// A law of calls that change nothing that is read: those that load indirect blocks or make spare nodes ready, and
/// the load of an inode which brings what was told.
pub fn rereading_law()
    ensures blocks { (u v : View) → IsSound u.forest → Walks u.forest v.forest → HoldsOn u v → TellsOn u v → Rereads u v }
    ensures ready { (u v : View) → IsSound u.forest → ReadiesOnly u.forest v.forest → HoldsOn u v → TellsOn u v → Rereads u v }
    ensures inodes { (u v : View) (top c : ℕ) (leaf : Ref) → IsSound u.forest → IsInodeLeaf u.forest top leaf → Seeks u.forest v.forest top leaf.key c
        → HoldsOn u v → TellsOn u v → ((x : Told) → u.forest.stands c ≡ false → u.tells leaf ≡ Some x → IsAsTold v.forest v.holds c x)
        → Rereads u v }
{}

/// A law of loads one after the other: the tree of each root that stood stands for what it stood for, be it a file's
/// bytes, a directory's entries, or a list of PFSs. Which numbers entries may name, and which bytes the blocks of
/// contents have, is as it may be. The reading after one load follows that before it, so that tables and forests stand
/// for the same too.
pub fn loads_law()
    ensures chained { (u v w : View) → StandsAlike u v → StandsAlike v w → StandsAlike u w }
    ensures contents { (u v : View) (block : Ref → Option Places) (at size : ℕ) (bytes : List ℕ) → StandsAlike u v → u.forest.stands at ≡ true
        → IsContents (reading u (λ r b. block r ≡ Some b)) (at_root at) size bytes
        → IsContents (reading v (λ r b. block r ≡ Some b)) (at_root at) size bytes }
    ensures directories { (u v : View) (may : ℕ → ℕ → Bool) (at size : ℕ) (entries : Entries) → StandsAlike u v → u.forest.stands at ≡ true
        → IsDirectory (reading u no_content) (λ target number. may target number ≡ true) (at_root at) size entries
        → IsDirectory (reading v no_content) (λ target number. may target number ≡ true) (at_root at) size entries }
    ensures pfs_lists { (u v : View) (at next : ℕ) (pfss : List ListedPfs) → StandsAlike u v → u.forest.stands at ≡ true
        → IsPfsList (reading u no_content) (at_root at) next pfss → IsPfsList (reading v no_content) (at_root at) next pfss }
    ensures follows { (u v : View) (block : Ref → Option Places) → Rereads u v → Follows (over_loads u v (λ r b. block r ≡ Some b)) }
{}

/// A law with worked values: an inode without references stands for a directory without entries, and one leaf that
/// names the inode of a PFS, be it loaded or told, for a list of one PFS.
pub fn worked_law()
    ensures directory { (u : View) (may : ℕ → ℕ → Bool) (at : ℕ) (i : Inode) → HasInode u.forest u.holds at i → refs_of_body i.body ≡ []
        → IsDirectory (reading u no_content) (λ target number. may target number ≡ true) (at_root at) 0 empty }
    ensures pfs_list { (u : View) (top next : ℕ) (leaf : Ref) (i : Inode) (t : Tree) → LeavesOf u.forest top (leaf ∷ []) → limit leaf ≤ 2 ^ 64
        → leaf.kind ≡ Inode_kind → NamesInode u.forest u.holds u.tells (at_root top) leaf i t → i.kind ≡ Pfs_kind → i.number ≡ leaf.key
        → IsPfsName i.name → leaf.key < next
        → IsPfsList (reading u no_content) (at_root top) next (listed leaf.key i ∷ []) }
{}

/// A law of which inodes leaves name. A root has one inode; after the load of an inode its leaf names that one alone.
/// A new inode leaves what all other leaves name. Where an inode is replaced, a leaf that named it names the new one,
/// and each other leaf whose root stands still names what it named.
pub fn naming_law()
    ensures one { (f : Forest) (holds : ℕ → Option Fields) (at : ℕ) (i j : Inode) → HasInode f holds at i → HasInode f holds at j → i ≡ j }
    ensures sought { (u v : View) (top c : ℕ) (leaf : Ref) (i j : Inode) (t : Tree) → Seeks u.forest v.forest top leaf.key c
        → u.forest.stands top ≡ true → HasInode v.forest v.holds c j → NamesInode v.forest v.holds v.tells (at_root top) leaf i t
        → (i ≡ j) × (t ≡ at_root c) }
    ensures planted { (u v : View) (top key c n : ℕ) (r : Ref) (i : Inode) (t : Tree) → IsSound u.forest → Plants u.forest v.forest top key c
        → HoldsOn u v → TellsOn u v → u.forest.stands n ≡ true → NamesInode u.forest u.holds u.tells (at_root n) r i t
        → ((n ≡ top) × (r.key ≡ key) → ⊥)
        → (w : Tree) × NamesInode v.forest v.holds v.tells (at_root n) r i w × IsSameTree u v t w }
    ensures replaced { (u v : View) (at top : ℕ) (s : RefSet) (r : Ref) (i new : Inode) (t : Tree) → Replaces u.forest v.forest at s
        → HoldsBut at u v → TellsOn u v → u.forest.stands top ≡ true → v.forest.stands top ≡ true → HasInode v.forest v.holds at new
        → NamesInode u.forest u.holds u.tells (at_root top) r i t
        → ((c : ℕ) → IsRootOf u.forest top r.key c → v.forest.stands c ≡ true)
        → ((t ≡ at_root at) × NamesInode v.forest v.holds v.tells (at_root top) r new (at_root at))
        ⊎ ((w : Tree) × NamesInode v.forest v.holds v.tells (at_root top) r i w × IsSameTree u v t w) }
{}

/// A law: where each leaf names one root at most, what is read of directories and lists of PFSs has one answer at
/// most, and so has what is read of files where each block has one contents at most. A tree stands for the bytes of
/// one file of a size at most, for one directory, and one list of PFSs. It is so after each call if it was before.
pub fn one_reading_law()
    ensures single { (u : View) → NamesOne u.forest → IsSingle (reading u no_content) }
    ensures contents { (u : View) (block : Ref → Option Places) → NamesOne u.forest → IsSingle (reading u (λ r b. block r ≡ Some b)) }
    ensures files { (u : View) (block : Ref → Option Places) (t : Tree) (size : ℕ) (x y : List ℕ) → NamesOne u.forest
        → IsContents (reading u (λ r b. block r ≡ Some b)) t size x → IsContents (reading u (λ r b. block r ≡ Some b)) t size y → y ≡ x }
    ensures directories { (u : View) (may might : ℕ → ℕ → Bool) (t : Tree) (m n : ℕ) (d e : Entries) → NamesOne u.forest
        → IsDirectory (reading u no_content) (λ target number. may target number ≡ true) t m d
        → IsDirectory (reading u no_content) (λ target number. might target number ≡ true) t n e → e ≡ d }
    ensures pfs_lists { (u : View) (t : Tree) (m n : ℕ) (x y : List ListedPfs) → NamesOne u.forest
        → IsPfsList (reading u no_content) t m x → IsPfsList (reading u no_content) t n y → y ≡ x }
    ensures visited { (f g : Forest) → IsSound f → NamesOne f → Visits f g → NamesOne g }
    ensures sought { (f g : Forest) (top key c : ℕ) → IsSound f → NamesOne f → Seeks f g top key c → NamesOne g }
    ensures planted { (f g : Forest) (top key c : ℕ) → IsSound f → NamesOne f → Plants f g top key c → IsUnloaded f top key → NamesOne g }
    ensures walked { (f g : Forest) → NamesOne f → Walks f g → NamesOne g }
    ensures readied { (f g : Forest) → NamesOne f → ReadiesOnly f g → NamesOne g }
    ensures altered { (f g : Forest) (at : ℕ) → NamesOne f → Alters f g at → NamesOne g }
    ensures stored { (f g : Forest) (at : ℕ) (s : RefSet) → NamesOne f → Stores f g at s → NamesOne g }
    ensures made { (f g : Forest) (at c : ℕ) (set : RefSet) (split : Split) → IsSound f → f.stands at ≡ true → NamesOne f
        → Makes f g at c set split → NamesOne g }
    ensures replaced { (f g : Forest) (at : ℕ) (s : RefSet) → NamesOne f → Replaces f g at s → NamesOne g }
{}

/// A law: where the leaves below a root stay, and the names of entries, a directory's entries and a file's bytes do,
/// whatever inodes are loaded, made or replaced. An inode that is replaced by one with the same set is such a change.
pub fn leaves_law()
    ensures directories { (u v : View) (may : ℕ → ℕ → Bool) (at size : ℕ) (entries : Entries) → KeepsLeaves u.forest v.forest at
        → ((r : Ref) (name : List ℕ) → u.forest.name r ≡ Some name → v.forest.name r ≡ Some name)
        → IsDirectory (reading u no_content) (λ target number. may target number ≡ true) (at_root at) size entries
        → IsDirectory (reading v no_content) (λ target number. may target number ≡ true) (at_root at) size entries }
    ensures contents { (u v : View) (block : Ref → Option Places) (at size : ℕ) (bytes : List ℕ) → KeepsLeaves u.forest v.forest at
        → IsContents (reading u (λ r b. block r ≡ Some b)) (at_root at) size bytes
        → IsContents (reading v (λ r b. block r ≡ Some b)) (at_root at) size bytes }
    ensures refitted { (u v : View) (may : ℕ → ℕ → Bool) (at m size : ℕ) (entries : Entries) → IsSound u.forest
        → Replaces u.forest v.forest at (u.forest.set at) → u.forest.stands at ≡ true → u.forest.root at ≡ at → u.forest.stands m ≡ true
        → IsDirectory (reading u no_content) (λ target number. may target number ≡ true) (at_root m) size entries
        → IsDirectory (reading v no_content) (λ target number. may target number ≡ true) (at_root m) size entries }
{}

/// A law: what bytes blocks of content have tells nothing of directories and lists of PFSs: they are read the same as
/// without. A file has the bytes that it had where more blocks are told, and so the reading follows, with all tables
/// and forests.
pub fn contents_apart_law()
    ensures directories { (u : View) (block : Ref → Option Places) (may : ℕ → ℕ → Bool) (t : Tree) (size : ℕ) (entries : Entries)
        → IsDirectory (reading u (λ r b. block r ≡ Some b)) (λ target number. may target number ≡ true) t size entries
        ↔ IsDirectory (reading u no_content) (λ target number. may target number ≡ true) t size entries }
    ensures pfs_lists { (u : View) (block : Ref → Option Places) (t : Tree) (next : ℕ) (pfss : List ListedPfs)
        → IsPfsList (reading u (λ r b. block r ≡ Some b)) t next pfss ↔ IsPfsList (reading u no_content) t next pfss }
    ensures files { (u : View) (block more : Ref → Option Places) (t : Tree) (size : ℕ) (body : Body) (bytes : List ℕ)
        → ((r : Ref) (b : Places) → block r ≡ Some b → more r ≡ Some b)
        → HasBytes (reading u (λ r b. block r ≡ Some b)) t size body bytes → HasBytes (reading u (λ r b. more r ≡ Some b)) t size body bytes }
    ensures follows { (u : View) (block more : Ref → Option Places) → ((r : Ref) (b : Places) → block r ≡ Some b → more r ≡ Some b)
        → Follows (over_contents u (λ r b. block r ≡ Some b) (λ r b. more r ≡ Some b)) }
{}
