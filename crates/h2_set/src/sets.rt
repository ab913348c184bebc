ghost use Rattle.std.specs.Prelude.{◌≡◌, ◌^◌, ◌<◌, ◌≤◌, ℕ, List, true, Some, IfOk, IfErr, OnErr, OnOk, IsOk, IsTrue, slice_get, take, length};
ghost use Rattle.h2_ref.specs.declared.reference.Ref.{Ref};
ghost use Rattle.h2_ref.specs.declared.reference.Dirent.{Dirent};
ghost use Rattle.h2_ref.specs.declared.faults.Trouble.{Trouble};
ghost use Rattle.h2_ref.specs.declared.faults.Why.{Why};
ghost use Rattle.h2_ref.specs.Ref.{IsValid};
ghost use Rattle.h2_set.specs.Forest.{Forest, refs, loaded, told, IsSound};
ghost use Rattle.h2_set.specs.Calls.{IsBad, IsIndirectAt, Walks, HasCause, MeetsNone, MeetsOnly, Alters, Storable, Stores, Loads, Unchanged, MadeFrom, Makes, ReadiesOnly, KeepsBeside};

use crate::set::{Set, Split};
use h2_num::{Bytes, NoMemory};
use h2_ref::{Ref, Trouble};
use std::alloc::Global;

/// A node of a forest, by its number.
#[derive(Clone, Copy, Debug, PartialEq, Eq)]
pub struct NodeId(pub u32);

/// A forest of sets of references, wherever its nodes come from.
///
/// It is seen as one `Forest`: which nodes stand and their sets, what is below each indirect reference, which
/// nodes are writable, which roots are held, the spare nodes and the room for blocks, and two counts that never
/// fall, of disk faults and of bad blocks met. A node that is given to a call is loaded and stands, and the forest
/// is sound. Each call ensures one relation between the forest before and after it, in which all that it doesn't
/// name stays. What a root keeps beside its set stays as well, and the implementer's own relation between an
/// earlier and a later value holds from the start of each call to its end.
pub trait Sets {
    /// What the root of an inode keeps beside its set.
    type Beside;

    /// The forest that it is seen as.
    ghost forest: { Self → Forest };

    /// What a root keeps beside its set.
    ghost beside: { Self → ℕ → Self.Beside };

    /// What a later value has to do with an earlier one.
    ghost later: { Self → Self → Type 0 };

    /// The set of a node.
    fn get(&self, at: NodeId) -> &Set
        requires { let f = forest self.now in f.stands at.0 ≡ true }
        ensures { let f = forest self.now in result.now ≡ f.set at.0 };

    /// The epoch: the number of the checkpoint to which what is changed now belongs.
    fn epoch(&self) -> u64
        ensures { let f = forest self.now in result ≡ f.epoch };

    /// The node that the indirect reference at place `i` of the set leads to, loaded where it wasn't. No other node
    /// is loaded, and it isn't writable. Trouble only where it wasn't loaded: Failed where the disk failed, Bad with the
    /// reference's place where the block isn't one of this tree, which is never so of a block whose leaves are told. After
    /// it nothing but the two counts and the last bad block that was met has changed. Of the faults of the disk just the one
    /// is met that the answer tells, so none where it is Ok or want of memory.
    fn child(&mut self, alloc: Global, at: NodeId, i: usize) -> Result<NodeId, Trouble>
        requires sound { IsSound (forest self.old) }
        requires stands { let f = forest self.old in f.stands at.0 ≡ true }
        requires indirect { IsIndirectAt (refs (forest self.old) at.0) i }
        ensures walks { Walks (forest self.old) (forest self.new) }
        ensures ok { let g = forest self.new in IfOk result (λ c. (r : Ref) → slice_get (refs (forest self.old) at.0) i ≡ Some r → g.link at.0 r.key ≡ loaded c.0) }
        ensures loads { (r : Ref) → slice_get (refs (forest self.old) at.0) i ≡ Some r → Loads (forest self.old) (forest self.new) at.0 r.key }
        ensures same { OnErr result (Unchanged (forest self.old) (forest self.new)) }
        ensures err { IfErr result (HasCause (forest self.old) (forest self.new)) }
        ensures unloaded { let f = forest self.old in OnErr result ((r : Ref) (c : ℕ) → slice_get (refs f at.0) i ≡ Some r → f.link at.0 r.key ≡ loaded c → ⊥) }
        ensures place { let f = forest self.old in IfErr result (λ e. (r : Ref) (place : ℕ) (why : Why) → slice_get (refs f at.0) i ≡ Some r → e ≡ Trouble.Bad place why → place ≡ r.place) }
        ensures none_met { OnOk result (MeetsNone (forest self.old) (forest self.new)) }
        ensures met_only { IfErr result (MeetsOnly (forest self.old) (forest self.new)) }
        ensures good { let f = forest self.old in IfErr result (λ e. (r : Ref) (l : List Ref) → slice_get (refs f at.0) i ≡ Some r → f.link at.0 r.key ≡ told l → IsBad e → ⊥) }
        ensures beside { KeepsBeside (forest self.old) (forest self.new) (beside self.old) (beside self.new) }
        ensures later { later self.old self.new };

    /// Makes the number of spare nodes at least `n`. Where it is so already it isn't refused, and nothing changes; after
    /// a refusal nothing has changed either.
    fn ready(&mut self, alloc: Global, n: u32) -> Result<(), NoMemory>
        requires sound { IsSound (forest self.old) }
        ensures ok { let g = forest self.new in OnOk result (n ≤ g.spare) }
        ensures same { ReadiesOnly (forest self.old) (forest self.new) }
        ensures enough { let f = forest self.old in n ≤ f.spare → IsOk result }
        ensures still { let f = forest self.old in let g = forest self.new in n ≤ f.spare → g.spare ≡ f.spare }
        ensures err { let f = forest self.old in let g = forest self.new in OnErr result (g.spare ≡ f.spare) }
        ensures beside { KeepsBeside (forest self.old) (forest self.new) (beside self.old) (beside self.new) }
        ensures later { later self.old self.new };

    /// Makes the node and all above it writable, the root and what is above that too, and lowers the room by the
    /// number of nodes from it up to below the root that weren't. The references on the way to the node, in its tree
    /// and from above the root, may name other blocks then, but for those to nodes that were writable. No other
    /// reference changes.
    fn alter(&mut self, at: NodeId)
        requires sound { IsSound (forest self.old) }
        requires stands { let f = forest self.old in f.stands at.0 ≡ true }
        requires room { let f = forest self.old in f.copies at.0 ≤ f.room }
        ensures alters { Alters (forest self.old) (forest self.new) at.0 }
        ensures beside { KeepsBeside (forest self.old) (forest self.new) (beside self.old) (beside self.new) }
        ensures later { later self.old self.new };

    /// Makes `set` the set of a writable node. What stood below a reference that it lacks, or belonged to a leaf there,
    /// stands no longer; all else does.
    fn store(&mut self, at: NodeId, set: Set)
        requires sound { IsSound (forest self.old) }
        requires stands { let f = forest self.old in f.stands at.0 ≡ true }
        requires writable { let f = forest self.old in f.writable at.0 ≡ true }
        requires storable { Storable (forest self.old) at.0 set }
        ensures stores { Stores (forest self.old) (forest self.new) at.0 set }
        ensures beside { KeepsBeside (forest self.old) (forest self.new) (beside self.old) (beside self.new) }
        ensures later { later self.old self.new };

    /// Makes a writable indirect node of what a split of a copy of the set of `at` moved, and gives `at` the rest and
    /// a reference to it. Nodes that were loaded stay loaded. It lowers the spare nodes and the room by one.
    fn make(&mut self, at: NodeId, set: Set, split: Split) -> NodeId
        requires sound { IsSound (forest self.old) }
        requires stands { let f = forest self.old in f.stands at.0 ≡ true }
        requires writable { let f = forest self.old in f.writable at.0 ≡ true }
        requires space { let f = forest self.old in (1 ≤ f.spare) × (1 ≤ f.room) }
        requires split { (r : Ref) × MadeFrom (forest self.old) at.0 r set split }
        ensures makes { Makes (forest self.old) (forest self.new) at.0 result.0 set split }
        ensures beside { KeepsBeside (forest self.old) (forest self.new) (beside self.old) (beside self.new) }
        ensures later { later self.old self.new };

    /// The name of a directory's entry, as long as the entry says. Nothing but the two counts and the last bad block that
    /// was met changes. Trouble only from a load or want of memory in this call, and a name of at most 64 bytes, which
    /// stands in its entry, needs no load; the block of a name that is told is never bad. Of the faults of the disk just the
    /// one is met that the answer tells, so none where it is Ok or want of memory.
    fn name(&mut self, alloc: Global, r: &Ref) -> Result<Bytes, Trouble>
        requires sound { IsSound (forest self.old) }
        requires valid { IsValid r.now }
        requires entry { (d : Dirent) × (r.now.dirent ≡ Some d) }
        ensures same { Unchanged (forest self.old) (forest self.new) }
        ensures told { let f = forest self.old in IfOk result (λ b. (name : List ℕ) → f.name r.now ≡ Some name → b ≡ name) }
        ensures inline { IfOk result (λ b. (d : Dirent) → r.now.dirent ≡ Some d → d.len ≤ 64 → b ≡ take d.len d.name) }
        ensures long { IfOk result (λ b. (d : Dirent) → r.now.dirent ≡ Some d → length b ≡ d.len) }
        ensures err { IfErr result (HasCause (forest self.old) (forest self.new)) }
        ensures place { IfErr result (λ e. (place : ℕ) (why : Why) → e ≡ Trouble.Bad place why → place ≡ r.now.place) }
        ensures none_met { OnOk result (MeetsNone (forest self.old) (forest self.new)) }
        ensures met_only { IfErr result (MeetsOnly (forest self.old) (forest self.new)) }
        ensures good { let f = forest self.old in IfErr result (λ e. (name : List ℕ) → f.name r.now ≡ Some name → IsBad e → ⊥) }
        ensures unread { IfErr result (λ e. (d : Dirent) → r.now.dirent ≡ Some d → d.len ≤ 64 → e ≡ Trouble.NoMemory) }
        ensures beside { KeepsBeside (forest self.old) (forest self.new) (beside self.old) (beside self.new) }
        ensures later { later self.old self.new };

    ghost same_later: { (s : Self) → later s s };

    ghost later_later: { (s t u : Self) → later s t → later t u → later s u };
}
