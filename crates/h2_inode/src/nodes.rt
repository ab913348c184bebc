ghost use Rattle.std.specs.Prelude.{◌≡◌, ◌≤◌, ℕ, true, false, Option, Some, IfOk, IfErr, OnErr, OnOk};
ghost use Rattle.h2_ref.specs.declared.reference.Ref.{Ref};
ghost use Rattle.h2_ref.specs.declared.faults.Trouble.{Trouble};
ghost use Rattle.h2_ref.specs.declared.faults.Why.{Why};
ghost use Rattle.h2_set.specs.Forest.{IsSound};
ghost use Rattle.h2_set.specs.Calls.{IsBad, Unchanged, HasCause, MeetsNone, MeetsOnly, KeepsBeside};
ghost use Rattle.h2_inode.specs.declared.inode.Inode.{Inode};
ghost use Rattle.h2_inode.specs.Inode.{IsInode};
ghost use Rattle.h2_inode.specs.Nodes.{Fields, held_by, set_of, HasInode, IsInodeLeaf, IsUnloaded, Told, IsAsTold, IsPlantable, Replaceable, Seeks, Plants, Replaces, KeepsOthersBeside};

use crate::inode::Inode;
use h2_ref::{Ref, Trouble};
use h2_set::{NodeId, Sets};
use std::alloc::Global;

/// A forest of sets whose roots are those of inodes, but for the super-root.
///
/// An inode is the set of its root, and what the root holds beside it (`Fields`). Where its body is bytes, it has no
/// set, which counts as an empty one, and its tree may have no leaf. Which leaf names a root is told by the forest:
/// the root belongs to that leaf (`IsRootOf`). What the block of an inode holds may be told by its reference (`Told`),
/// and a load brings what was told. Each call has one relation between the forest before and after it, in which all
/// that it doesn't name stays.
pub trait Nodes: Sets {
    /// What a root holds of an inode, by what is kept beside its set: None for the super-root, which is none's.
    ghost fields: { Self.Beside → Option Fields };

    /// What the block of an Inode reference is known to hold.
    ghost told: { Self → Ref → Option Told };

    /// The root of the inode that an Inode leaf names, in the tree of the root `root`, loaded where it wasn't. The
    /// leaf's path is loaded. Trouble only where the inode wasn't loaded: Failed where the disk failed, Bad with the
    /// leaf's place where the block isn't that of the inode whose number is the key, which is never so of one that is
    /// told. After it nothing but the two counts and the last bad block that was met has changed. Of the faults of the
    /// disk just the one is met that the answer tells.
    fn seek(&mut self, alloc: Global, root: NodeId, leaf: &Ref) -> Result<NodeId, Trouble>
        requires sound { IsSound (Self.forest self.old) }
        requires leaf { IsInodeLeaf (Self.forest self.old) root.0 leaf.now }
        ensures ok { IfOk result (λ c. let r : Ref = leaf.now in Seeks (Self.forest self.old) (Self.forest self.new) root.0 r.key c.0) }
        ensures inode { IfOk result (λ c. let r : Ref = leaf.now in (i : Inode) × HasInode (Self.forest self.new) (held_by fields (Self.beside self.new)) c.0 i × (i.number ≡ r.key)) }
        ensures spelled { let f = Self.forest self.old in IfOk result (λ c. (i : Inode) → f.stands c.0 ≡ false → HasInode (Self.forest self.new) (held_by fields (Self.beside self.new)) c.0 i → IsInode i) }
        ensures told { let f = Self.forest self.old in IfOk result (λ c. (x : Told) → f.stands c.0 ≡ false → told self.old leaf.now ≡ Some x → IsAsTold (Self.forest self.new) (held_by fields (Self.beside self.new)) c.0 x) }
        ensures same { OnErr result (Unchanged (Self.forest self.old) (Self.forest self.new)) }
        ensures err { IfErr result (HasCause (Self.forest self.old) (Self.forest self.new)) }
        ensures unloaded { OnErr result (let r : Ref = leaf.now in IsUnloaded (Self.forest self.old) root.0 r.key) }
        ensures place { let r : Ref = leaf.now in IfErr result (λ e. (place : ℕ) (why : Why) → e ≡ Trouble.Bad place why → place ≡ r.place) }
        ensures none_met { OnOk result (MeetsNone (Self.forest self.old) (Self.forest self.new)) }
        ensures met_only { IfErr result (MeetsOnly (Self.forest self.old) (Self.forest self.new)) }
        ensures good { IfErr result (λ e. (x : Told) → told self.old leaf.now ≡ Some x → IsBad e → ⊥) }
        ensures beside { KeepsBeside (Self.forest self.old) (Self.forest self.new) (Self.beside self.old) (Self.beside self.new) }
        ensures later { Self.later self.old self.new };

    /// The inode of a root.
    fn inode(&self, at: NodeId) -> &Inode
        requires { (i : Inode) × HasInode (Self.forest self.now) (held_by fields (Self.beside self.now)) at.0 i }
        ensures { HasInode (Self.forest self.now) (held_by fields (Self.beside self.now)) at.0 result.now };

    /// Replaces the inode of a writable root. Its kind and its number stay, and its set changes as by `store`; where
    /// the body is bytes, before or after, its set counts as an empty one.
    fn set_inode(&mut self, at: NodeId, inode: Inode)
        requires sound { IsSound (Self.forest self.old) }
        requires kept { (i : Inode) × HasInode (Self.forest self.old) (held_by fields (Self.beside self.old)) at.0 i × (inode.kind ≡ i.kind) × (inode.number ≡ i.number) }
        requires writable { let f = Self.forest self.old in f.writable at.0 ≡ true }
        requires replaceable { Replaceable (Self.forest self.old) at.0 inode.kind (set_of inode.body) }
        ensures replaces { Replaces (Self.forest self.old) (Self.forest self.new) at.0 (set_of inode.body) }
        ensures inode { HasInode (Self.forest self.new) (held_by fields (Self.beside self.new)) at.0 inode }
        ensures beside { KeepsOthersBeside (Self.forest self.old) (Self.forest self.new) at.0 (Self.beside self.old) (Self.beside self.new) }
        ensures later { Self.later self.old self.new };

    /// Makes the writable root of a new inode, which the leaf names in the tree of the root `root`. The leaf's path
    /// is loaded, its inode isn't, and the inode's number is its key. It lowers the spare nodes by one.
    fn plant(&mut self, root: NodeId, leaf: &Ref, inode: Inode) -> NodeId
        requires sound { IsSound (Self.forest self.old) }
        requires leaf { IsInodeLeaf (Self.forest self.old) root.0 leaf.now }
        requires unloaded { let r : Ref = leaf.now in IsUnloaded (Self.forest self.old) root.0 r.key }
        requires number { let r : Ref = leaf.now in inode.number ≡ r.key }
        requires plantable { IsPlantable inode }
        requires spare { let f = Self.forest self.old in 1 ≤ f.spare }
        ensures plants { let r : Ref = leaf.now in Plants (Self.forest self.old) (Self.forest self.new) root.0 r.key result.0 }
        ensures inode { HasInode (Self.forest self.new) (held_by fields (Self.beside self.new)) result.0 inode }
        ensures beside { KeepsBeside (Self.forest self.old) (Self.forest self.new) (Self.beside self.old) (Self.beside self.new) }
        ensures later { Self.later self.old self.new };

    ghost told_later: { (s t : Self) → Self.later s t → (r : Ref) (x : Told) → told s r ≡ Some x → told t r ≡ Some x };
}
