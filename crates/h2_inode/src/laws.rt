ghost use Rattle.std.specs.Prelude.{◌≡◌, ◌⊎◌, ◌<◌, ℕ, true, List, Option};
ghost use Rattle.h2_num.specs.Places.{Places, places, AreBytes, SameBelow};
ghost use Rattle.h2_ref.specs.declared.faults.Why.{Why};
ghost use Rattle.h2_ref.specs.declared.reference.Ref.{Ref};
ghost use Rattle.h2_ref.specs.Ref.{IsValid, size_of};
ghost use Rattle.h2_inode.specs.declared.fault.InodeFault.{InodeFault};
ghost use Rattle.h2_inode.specs.declared.inode.Inode.{Inode};
ghost use Rattle.h2_inode.specs.Inode.{IsInode, InodeBytes, NoInode};
ghost use Rattle.h2_inode.specs.Fault.{IsFaultOf};
ghost use Rattle.h2_set.specs.RefSet.{RefSet};
ghost use Rattle.h2_set.specs.Forest.{Forest, HasLeaves, LeavesOf, KeepsLeaves, IsSound, Reaches, IsRootOf};
ghost use Rattle.h2_set.specs.Calls.{InPlace, Stores, Walks};
ghost use Rattle.h2_inode.specs.Block.{Passes, refs_of_body};
ghost use Rattle.h2_inode.specs.Nodes.{Fields, HasInode, IsInodeLeaf, IsUnloaded, Brings, Seeks, Visits, Plants, Replaces};
ghost use Rattle.h2_inode.specs.NodeLaws.{NoneGoes};
ghost use Rattle.h2_inode.specs.Cause.{IsCauseOf};

use crate::decoding::decode_inode;
use crate::layout::INODE_BYTES;

/// A law: an inode has one spelling, bytes spell one inode at most, and which one is seen by their first 1024
/// alone.
pub fn inode_law()
    ensures one_spelling { (i : Inode) (a b : Places) → AreBytes a → AreBytes b
        → InodeBytes i a → InodeBytes i b → SameBelow 1024 a b }
    ensures one_value { (i j : Inode) (b : Places) → IsInode i → IsInode j
        → InodeBytes i b → InodeBytes j b → j ≡ i }
    ensures local { (i : Inode) (a b : Places) → IsInode i → SameBelow 1024 a b
        → InodeBytes i a → InodeBytes i b }
{}

/// A law: whether a block passes the reference that names it is seen by the bytes of the block alone.
pub fn passing_law()
    ensures { (r : Ref) (a b : Places) → IsValid r → 0 < r.radix → SameBelow (size_of r) a b
        → Passes r a → Passes r b }
{}

/// A law: bytes that meet a refusal spell no inode, and they meet one refusal at most. So a refusal comes
/// exactly where there is no inode, and which one follows from the bytes.
pub fn refusal_law()
    ensures refused { (b : Places) (fault : InodeFault) → IsFaultOf b fault → NoInode b }
    ensures one { (b : Places) (fault other : InodeFault) → IsFaultOf b fault → IsFaultOf b other → other ≡ fault }
{}

/// A law: a block of 1024 bytes spells an inode, or meets a first refusal.
pub fn inode_or_refusal_law(b: &[u8; INODE_BYTES])
    ensures { ((i : Inode) × IsInode i × InodeBytes i (places b.now)) ⊎ ((fault : InodeFault) × IsFaultOf (places b.now) fault) }
{
    let _ = decode_inode(b);
}

/// A law: a block with a cause doesn't pass the reference that names it, and has one cause at most. So what
/// `judge` answers follows from the reference and the bytes.
pub fn cause_law()
    ensures refuses { (r : Ref) (b : Places) (why : Why) → IsValid r → 0 < r.radix → IsCauseOf r b why → Passes r b → ⊥ }
    ensures one { (r : Ref) (b : Places) (why other : Why) → IsCauseOf r b why → IsCauseOf r b other → other ≡ why }
{}

/// A law of forests with inodes. Which leaf names a root stays where both roots stay. A call that brings one root
/// keeps the leaves of all trees; one that replaces a set keeps those of another tree of which nothing goes with its
/// leaves. The leaves of an inode's tree are those below the references of its body.
pub fn nodes_law()
    ensures named { (f g : Forest) (top key c : ℕ) → InPlace f g top → InPlace f g c → IsRootOf f top key c → IsRootOf g top key c }
    ensures brought { (f g : Forest) (c at : ℕ) → IsSound f → Brings f g c → f.stands at ≡ true → KeepsLeaves f g at }
    ensures stored { (f g : Forest) (at : ℕ) (s : RefSet) (top : ℕ) → IsSound f → Stores f g at s → (top ≡ f.root at → ⊥)
        → NoneGoes f at s top → (m : ℕ) → f.stands m ≡ true → f.root m ≡ top → KeepsLeaves f g m }
    ensures replaced { (f g : Forest) (at : ℕ) (s : RefSet) (top : ℕ) → IsSound f → Replaces f g at s → (top ≡ f.root at → ⊥)
        → NoneGoes f at s top → (m : ℕ) → f.stands m ≡ true → f.root m ≡ top → KeepsLeaves f g m }
    ensures leaves { (f : Forest) (holds : ℕ → Option Fields) (at : ℕ) (i : Inode) (l : List Ref) → HasInode f holds at i
        → HasLeaves f at (refs_of_body i.body) l → LeavesOf f at l }
{}

/// A law of loads, of indirect blocks and of inodes: they chain, and keep the leaves of all trees, the leaves of
/// inodes under loaded paths, and which roots those name.
pub fn visits_law()
    ensures sets { (f g : Forest) → Walks f g → Visits f g }
    ensures inodes { (f g : Forest) (top key c : ℕ) → Seeks f g top key c → Visits f g }
    ensures chained { (f g h : Forest) → Visits f g → Visits g h → Visits f h }
    ensures trees { (f g : Forest) (at : ℕ) → IsSound f → Visits f g → f.stands at ≡ true → KeepsLeaves f g at }
    ensures leaves { (f g : Forest) (top : ℕ) (leaf : Ref) → IsSound f → Visits f g → IsInodeLeaf f top leaf → IsInodeLeaf g top leaf }
    ensures names { (f g : Forest) (top key c : ℕ) → Visits f g → f.stands top ≡ true → IsRootOf f top key c → IsRootOf g top key c }
{}

/// A law of calls over inodes and of loaded paths. A root that comes leaves them, and which roots leaves name; after
/// the load or the making of an inode its leaf names one root. Where an inode is replaced by one with the same set, as
/// where only its size changes, no node goes, and all paths, sets and leaves stay.
pub fn paths_law()
    ensures brought { (f g : Forest) (c key at : ℕ) (o : Option Ref) → IsSound f → Brings f g c → f.stands at ≡ true
        → Reaches f key at o → Reaches g key at o }
    ensures sought { (f g : Forest) (top key c d : ℕ) → Seeks f g top key c → f.stands top ≡ true → IsRootOf g top key d → d ≡ c }
    ensures planted { (f g : Forest) (top key c d : ℕ) → Plants f g top key c → f.stands top ≡ true → IsUnloaded f top key
        → IsRootOf g top key d → d ≡ c }
    ensures visited { (f g : Forest) (key at : ℕ) (o : Option Ref) → IsSound f → Visits f g → f.stands at ≡ true
        → Reaches f key at o → Reaches g key at o }
    ensures replaced { (f g : Forest) (at : ℕ) (s : RefSet) (top key m : ℕ) (o : Option Ref) → IsSound f → Replaces f g at s
        → (top ≡ f.root at → ⊥) → NoneGoes f at s top → f.stands m ≡ true → f.root m ≡ top → Reaches f key m o → Reaches g key m o }
    ensures places { (f g : Forest) (at m : ℕ) → IsSound f → Replaces f g at (f.set at) → f.stands m ≡ true → InPlace f g m }
    ensures sets { (f g : Forest) (at m : ℕ) → IsSound f → Replaces f g at (f.set at) → f.stands m ≡ true → g.set m ≡ f.set m }
    ensures paths { (f g : Forest) (at key m : ℕ) (o : Option Ref) → IsSound f → Replaces f g at (f.set at) → f.stands m ≡ true
        → Reaches f key m o → Reaches g key m o }
    ensures kept { (f g : Forest) (at m : ℕ) → IsSound f → Replaces f g at (f.set at) → f.stands at ≡ true → f.root at ≡ at
        → f.stands m ≡ true → KeepsLeaves f g m }
{}
