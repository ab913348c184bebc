ghost use Rattle.std.specs.Prelude.{◌≡◌, ◌<◌, ◌≤◌, ◌⊎◌, true, false, ℕ, List, Some, None, slice_get, length, IfOk, IfErr, IfSome, IfNone, OnOk, OnErr};
ghost use Rattle.h2_ref.specs.declared.reference.Ref.{Ref};
ghost use Rattle.h2_set.specs.Ranges.{at_key, is_indirect};
ghost use Rattle.h2_set.specs.Forest.{Forest, refs, IsSound, LeavesOf, Reaches};
ghost use Rattle.h2_set.specs.Calls.{Walks, HasCause, IsBad, MeetsNone, MeetsOnly, KeepsBeside};
ghost use Rattle.h2_tree.specs.Changes.{IsFree, LeadsOnly, Removes, KeepsPaths, TakesOut, LacksLeaf, LoadsTouched, LoadsIn, PathUnloaded};

use crate::loading::load_child;
use h2_ref::{Ref, Trouble};
use h2_set::{NodeId, Sets, is_indirect};
use std::alloc::Global;

/// What taking a leaf out of a node's tree came to.
#[derive(Clone, Copy, PartialEq, Eq)]
pub(crate) enum Taken {
    /// There is no leaf with the key, and nothing has changed.
    Nothing,
    /// The leaf, which is out.
    Out(Ref),
    /// The leaf, which is the node's only one and still there: the reference to the node has to go.
    Sole(Ref),
}

// Takes a reference that leads to one leaf alone out of the set of a node.
fn cut_at<N: Sets>(n: &mut N, at: NodeId, i: usize)
    requires sound { IsSound (N.forest n.old) }
    requires stands { let f = N.forest n.old in f.stands at.0 ≡ true }
    requires room { let f = N.forest n.old in (f.copies at.0 ≤ 62) × (62 ≤ f.room) }
    requires more { let f = N.forest n.old in (f.root at.0 ≡ at.0) ⊎ (2 ≤ length (refs f at.0)) }
    requires only { let f = N.forest n.old in (leaf : Ref) × LeadsOnly f at.0 i leaf × IsFree f (f.root at.0) leaf.key }
    ensures removes { let f = N.forest n.old in (leaf : Ref) → LeadsOnly f at.0 i leaf → IsFree f (f.root at.0) leaf.key → Removes f (N.forest n.new) at.0 leaf }
    ensures none_met { MeetsNone (N.forest n.old) (N.forest n.new) }
    ensures beside { KeepsBeside (N.forest n.old) (N.forest n.new) (N.beside n.old) (N.beside n.new) }
    ensures later { N.later n.old n.new }
{
    n.alter(at);
    let mut set = n.get(at).copy();
    set.cut(i);
    n.store(at, set);
}

// Takes a reference that leads to one leaf alone out, unless the node has no other.
fn cut_unless_sole<N: Sets>(n: &mut N, at: NodeId, i: usize, leaf: Ref) -> Taken
    requires sound { IsSound (N.forest n.old) }
    requires stands { let f = N.forest n.old in f.stands at.0 ≡ true }
    requires room { let f = N.forest n.old in (f.copies at.0 ≤ 62) × (62 ≤ f.room) }
    requires only { LeadsOnly (N.forest n.old) at.0 i leaf }
    requires free { let f = N.forest n.old in IsFree f (f.root at.0) leaf.key }
    ensures taken { TakesOut (N.forest n.old) (N.forest n.new) at.0 leaf.key result }
    ensures none_met { MeetsNone (N.forest n.old) (N.forest n.new) }
    ensures beside { KeepsBeside (N.forest n.old) (N.forest n.new) (N.beside n.old) (N.beside n.new) }
    ensures later { N.later n.old n.new }
{
    if n.get(at).len() == 1 {
        return Taken::Sole(leaf);
    }
    cut_at(n, at, i);
    Taken::Out(leaf)
}

// Takes the leaf with the key out of the tree below a node, unless the node has no other.
fn take<N: Sets>(alloc: Global, n: &mut N, at: NodeId, key: u64) -> Result<Taken, Trouble>
    requires sound { IsSound (N.forest n.old) }
    requires stands { let f = N.forest n.old in f.stands at.0 ≡ true }
    requires room { let f = N.forest n.old in (f.copies at.0 ≤ 62) × (62 ≤ f.room) }
    requires free { let f = N.forest n.old in IsFree f (f.root at.0) key }
    ensures taken { IfOk result (TakesOut (N.forest n.old) (N.forest n.new) at.0 key) }
    ensures walks { OnErr result (Walks (N.forest n.old) (N.forest n.new)) }
    ensures err { IfErr result (HasCause (N.forest n.old) (N.forest n.new)) }
    ensures none_met { OnOk result (MeetsNone (N.forest n.old) (N.forest n.new)) }
    ensures met_only { IfErr result (MeetsOnly (N.forest n.old) (N.forest n.new)) }
    ensures touched { OnErr result (LoadsIn (N.forest n.old) (N.forest n.new) at.0 key key) }
    ensures unloaded { OnErr result (PathUnloaded (N.forest n.old) at.0 key) }
    ensures good { IfErr result (λ e. (l : List Ref) → LeavesOf (N.forest n.old) at.0 l → IsBad e → ⊥) }
    ensures beside { KeepsBeside (N.forest n.old) (N.forest n.new) (N.beside n.old) (N.beside n.new) }
    ensures later { N.later n.old n.new }
{
    let set = n.get(at);
    let Some(i) = set.find(key) else {
        return Ok(Taken::Nothing);
    };
    let found = *set.at(i);
    if !is_indirect(&found) {
        if found.key != key {
            return Ok(Taken::Nothing);
        }
        return Ok(cut_unless_sole(n, at, i, found));
    }
    let child = load_child(alloc, n, at, i)?;
    match take(alloc, n, child, key)? {
        Taken::Sole(leaf) => Ok(cut_unless_sole(n, at, i, leaf)),
        Taken::Out(leaf) => Ok(Taken::Out(leaf)),
        Taken::Nothing => Ok(Taken::Nothing),
    }
}

/// Takes out the leaf with this key, which is answered; None exactly where there is none, and then nothing but loads
/// took place, and the loaded path of the key leads to no leaf of this key. No node off that path is loaded. Nothing
/// that belongs to what the leaf names is held, and the room is at least 62; it is lowered by the number of nodes that
/// are copied. Of the tree nothing goes but indirect blocks that would be left empty: the reference to the uppermost of
/// them is cut. Paths to other keys stay loaded. Trouble only where a node on the key's path isn't loaded, and never a
/// bad block where the tree's leaves are known; nothing but loads took place then. Of the faults of the disk just the
/// one is met that the answer tells.
pub fn remove<N: Sets>(
    alloc: Global,
    n: &mut N,
    root: NodeId,
    key: u64,
) -> Result<Option<Ref>, Trouble>
    requires sound { IsSound (N.forest n.old) }
    requires stands { let f = N.forest n.old in f.stands root.0 ≡ true }
    requires top { let f = N.forest n.old in f.root root.0 ≡ root.0 }
    requires room { let f = N.forest n.old in 62 ≤ f.room }
    requires free { IsFree (N.forest n.old) root.0 key }
    ensures answer { IfOk result (λ o. (l : List Ref) → LeavesOf (N.forest n.old) root.0 l → o ≡ at_key key l) }
    ensures removes { IfOk result (λ o. IfSome o (Removes (N.forest n.old) (N.forest n.new) root.0)) }
    ensures key { IfOk result (λ o. IfSome o (λ leaf. leaf.key ≡ key)) }
    ensures paths { IfOk result (λ o. IfSome o (KeepsPaths (N.forest n.old) (N.forest n.new) root.0)) }
    ensures path { IfOk result (λ o. IfSome o (λ leaf. Reaches (N.forest n.new) leaf.key root.0 None)) }
    ensures absent { IfOk result (λ o. IfNone o (Walks (N.forest n.old) (N.forest n.new))) }
    ensures walks { OnErr result (Walks (N.forest n.old) (N.forest n.new)) }
    ensures err { IfErr result (HasCause (N.forest n.old) (N.forest n.new)) }
    ensures none_met { OnOk result (MeetsNone (N.forest n.old) (N.forest n.new)) }
    ensures met_only { IfErr result (MeetsOnly (N.forest n.old) (N.forest n.new)) }
    ensures none { IfOk result (λ o. IfNone o (LacksLeaf (N.forest n.new) root.0 key)) }
    ensures touched { OnErr result (LoadsTouched (N.forest n.old) (N.forest n.new) key key) }
    ensures tree { OnErr result (LoadsIn (N.forest n.old) (N.forest n.new) root.0 key key) }
    ensures off { IfOk result (λ o. IfNone o (LoadsTouched (N.forest n.old) (N.forest n.new) key key)) }
    ensures off_tree { IfOk result (λ o. IfNone o (LoadsIn (N.forest n.old) (N.forest n.new) root.0 key key)) }
    ensures unloaded { OnErr result (PathUnloaded (N.forest n.old) root.0 key) }
    ensures good { IfErr result (λ e. (l : List Ref) → LeavesOf (N.forest n.old) root.0 l → IsBad e → ⊥) }
    ensures beside { KeepsBeside (N.forest n.old) (N.forest n.new) (N.beside n.old) (N.beside n.new) }
    ensures later { N.later n.old n.new }
{
    match take(alloc, n, root, key)? {
        Taken::Nothing => Ok(None),
        Taken::Out(leaf) => Ok(Some(leaf)),
        Taken::Sole(leaf) => {
            cut_at(n, root, 0);
            Ok(Some(leaf))
        }
    }
}
