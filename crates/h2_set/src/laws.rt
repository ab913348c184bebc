ghost use Rattle.std.specs.Prelude.{◌≡◌, ◌+◌, ◌*◌, ◌^◌, ◌<◌, ◌≤◌, ℕ, List, Bool, true, false, Option, Some, None, length, slice_get, count_by};
ghost use Rattle.h2_num.specs.Places.{Places, AreBytes, SameBelow};
ghost use Rattle.h2_ref.specs.declared.reference.Ref.{Ref};
ghost use Rattle.h2_set.specs.Ranges.{find, holds, lies, NoneHolds, AllAligned, Rising, Sides};
ghost use Rattle.h2_set.specs.declared.set.Split.{Split};
ghost use Rattle.h2_set.specs.Forest.{Forest, refs, loaded, IsSound, KeepsLeaves, LeavesOf, Reaches};
ghost use Rattle.h2_set.specs.Calls.{Alters, MadeFrom, Makes, Same, Stores, Walks};
ghost use Rattle.h2_set.specs.PathLaws.{PathRenewed};
ghost use Rattle.h2_set.specs.RefSet.{RefSet, HoldsAll, IsSplitOf};
ghost use Rattle.h2_set.specs.SetBytes.{IsFaultOf, IsSetAt, SetBytes};
ghost use Rattle.h2_set.specs.declared.set_decoding.SetFault.{SetFault};

/// A law of the split rule, over three or more references with aligned, disjoint ranges in order. Its range lies in
/// each aligned range that holds all of them and has fewer keybits than that; each reference lies in it or apart from
/// it; those that lie in it have fewer keybits than it; they are at least two, and not all.
pub fn split_law()
    ensures inside { (rs : List Ref) (low high key bits k b : ℕ) → Rising low high rs → AllAligned rs → 3 ≤ length rs
        → IsSplitOf rs key bits → HoldsAll rs k b → (k ≤ key) × (key + 2 ^ bits ≤ k + 2 ^ b) }
    ensures fewer { (rs : List Ref) (low high key bits k b : ℕ) → Rising low high rs → AllAligned rs → 3 ≤ length rs
        → IsSplitOf rs key bits → HoldsAll rs k b → bits < b }
    ensures sides { (rs : List Ref) (low high key bits : ℕ) → Rising low high rs → AllAligned rs → 3 ≤ length rs
        → IsSplitOf rs key bits → (i : ℕ) (r : Ref) → slice_get rs i ≡ Some r → Sides key bits r }
    ensures shorter { (rs : List Ref) (low high key bits : ℕ) → Rising low high rs → AllAligned rs → 3 ≤ length rs
        → IsSplitOf rs key bits → (i : ℕ) (r : Ref) → slice_get rs i ≡ Some r → lies key bits r ≡ true → r.keybits < bits }
    ensures two { (rs : List Ref) (low high key bits : ℕ) → Rising low high rs → AllAligned rs → 3 ≤ length rs
        → IsSplitOf rs key bits → 2 ≤ count_by (lies key bits) rs }
    ensures few { (rs : List Ref) (low high key bits : ℕ) → Rising low high rs → AllAligned rs → 3 ≤ length rs
        → IsSplitOf rs key bits → count_by (lies key bits) rs < length rs }
{}

/// A law of sets in bytes, wherever in a block they begin: a set has one spelling, bytes spell one set at most, and
/// which one is seen by 128 bytes for each reference that it has room for. Bytes that meet a refusal spell no set, and
/// they meet one refusal at most.
pub fn set_bytes_law()
    ensures one_spelling { (capacity : ℕ) (refs : List Ref) (a b : Places) → AreBytes a → AreBytes b
        → SetBytes capacity refs a → SetBytes capacity refs b → SameBelow (128 * capacity) a b }
    ensures one_value { (capacity : ℕ) (refs others : List Ref) (b : Places) → IsSetAt capacity refs b
        → IsSetAt capacity others b → others ≡ refs }
    ensures local { (capacity : ℕ) (refs : List Ref) (a b : Places) → SameBelow (128 * capacity) a b
        → SetBytes capacity refs a → SetBytes capacity refs b }
    ensures refused { (capacity : ℕ) (refs : List Ref) (b : Places) (fault : SetFault) → IsFaultOf capacity b fault
        → IsSetAt capacity refs b → ⊥ }
    ensures one_refusal { (capacity : ℕ) (b : Places) (fault other : SetFault) → IsFaultOf capacity b fault
        → IsFaultOf capacity b other → other ≡ fault }
{}

/// A law of loaded paths in a sound forest: the path of a key leads to one leaf or to none, which is what the list of
/// leaves has where it is known. While nodes are loaded it stays, as the lists of leaves do, and where a node is
/// altered it leads to what it led to, but for where the block of an inode lies in another tree. It leads through each
/// node of the tree that has a reference whose range holds the key. Making a node keeps the path of each key that had
/// a leaf, or that isn't in the range of the new one. Storing a set keeps that of each key whose reference stays, or
/// that had none and has none, where no other node on it changes.
pub fn path_law()
    ensures one { (f : Forest) (key at : ℕ) (o p : Option Ref) → IsSound f → f.stands at ≡ true → Reaches f key at o
        → Reaches f key at p → o ≡ p }
    ensures found { (f : Forest) (key at : ℕ) (o : Option Ref) (l : List Ref) → IsSound f → f.stands at ≡ true
        → Reaches f key at o → LeavesOf f at l → o ≡ find key l }
    ensures kept { (f g : Forest) (at : ℕ) → IsSound f → Walks f g → f.stands at ≡ true → KeepsLeaves f g at }
    ensures walked { (f g : Forest) (key at : ℕ) (o : Option Ref) → IsSound f → Walks f g → f.stands at ≡ true
        → Reaches f key at o → Reaches g key at o }
    ensures altered { (f g : Forest) (key at m : ℕ) (o : Option Ref) → IsSound f → Alters f g at → f.stands m ≡ true
        → Reaches f key m o → PathRenewed g key m o }
    ensures tree { (f g : Forest) (key at m : ℕ) (o : Option Ref) → IsSound f → Alters f g at → f.stands m ≡ true
        → f.root m ≡ f.root at → Reaches f key m o → Reaches g key m o }
    ensures through { (f : Forest) (key top at i : ℕ) (r : Ref) (o : Option Ref) → IsSound f → f.root top ≡ top
        → f.stands at ≡ true → f.root at ≡ top → slice_get (refs f at) i ≡ Some r → holds key r ≡ true
        → Reaches f key top o → Reaches f key at o }
    ensures made { (f g : Forest) (at c : ℕ) (leaf : Ref) (set : RefSet) (s : Split) → IsSound f → f.stands at ≡ true
        → MadeFrom f at leaf set s → Makes f g at c set s → (key m : ℕ) (o : Option Ref) → f.stands m ≡ true
        → (o ≡ None → holds key leaf ≡ false) → Reaches f key m o → Reaches g key m o }
    ensures stored { (f g : Forest) (key at : ℕ) (s : RefSet) (p : ℕ → Bool) → IsSound f → Stores f g at s
        → ((m : ℕ) → p m ≡ true → f.stands m ≡ true) → ((m i c : ℕ) (r : Ref) → p m ≡ true → slice_get (refs f m) i ≡ Some r → holds key r ≡ true → f.link m r.key ≡ loaded c → p c ≡ true)
        → ((m : ℕ) → p m ≡ true → (m ≡ at → ⊥) → Same f g m) → (m : ℕ) (o : Option Ref)
        → ((i : ℕ) (r : Ref) → slice_get (refs f at) i ≡ Some r → holds key r ≡ true → (j : ℕ) × (slice_get s.refs j ≡ Some r))
        → (NoneHolds key (refs f at) → NoneHolds key s.refs) → p m ≡ true → Reaches f key m o → Reaches g key m o }
{}
