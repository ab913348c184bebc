ghost use Rattle.std.specs.Prelude.{◌≡◌, ◌<◌, ◌≤◌, ◌⊎◌, true, false, ℕ, List, Some, None, slice_get, length, IfOk, IfErr, OnOk, OnErr};
ghost use Rattle.h2_ref.specs.declared.reference.Ref.{Ref};
ghost use Rattle.h2_set.specs.Ranges.{find, is_indirect, NoneHolds};
ghost use Rattle.h2_set.specs.Forest.{Forest, refs, IsSound, LeavesOf, Reaches};
ghost use Rattle.h2_set.specs.Calls.{Walks, HasCause, IsBad, MeetsNone, MeetsOnly, KeepsBeside, ReadiesOnly};
ghost use Rattle.h2_tree.specs.Changes.{Takes, Inserts, KeepsPaths, LoadsTouched, LoadsIn, PathUnloaded};

use crate::loading::load_child;
use h2_num::NoMemory;
use h2_ref::{Ref, Trouble};
use h2_set::{NodeId, PutAnswer, Sets, is_indirect};
use std::alloc::Global;

// Puts a leaf in place of one with the same range.
fn replace<N: Sets>(n: &mut N, at: NodeId, i: usize, leaf: Ref) -> Ref
    requires sound { IsSound (N.forest n.old) }
    requires stands { let f = N.forest n.old in f.stands at.0 ≡ true }
    requires room { let f = N.forest n.old in 63 ≤ f.room }
    requires takes { Takes (N.forest n.old) at.0 leaf }
    requires there { i < length (refs (N.forest n.old) at.0) }
    requires same { (q : Ref) → slice_get (refs (N.forest n.old) at.0) i ≡ Some q → (is_indirect q ≡ false) × (q.key ≡ leaf.key) × (q.keybits ≡ leaf.keybits) }
    ensures inserts { Inserts (N.forest n.old) (N.forest n.new) at.0 leaf (Some result) }
    ensures old { slice_get (refs (N.forest n.old) at.0) i ≡ Some result }
    ensures none_met { MeetsNone (N.forest n.old) (N.forest n.new) }
    ensures beside { KeepsBeside (N.forest n.old) (N.forest n.new) (N.beside n.old) (N.beside n.new) }
    ensures later { N.later n.old n.new }
{
    n.alter(at);
    let mut set = n.get(at).copy();
    let old = set.swap(i, leaf);
    n.store(at, set);
    old
}

// Adds a leaf to a set that has room.
fn place<N: Sets>(n: &mut N, at: NodeId, leaf: Ref)
    requires sound { IsSound (N.forest n.old) }
    requires stands { let f = N.forest n.old in f.stands at.0 ≡ true }
    requires room { let f = N.forest n.old in 63 ≤ f.room }
    requires takes { Takes (N.forest n.old) at.0 leaf }
    requires none { NoneHolds leaf.key (refs (N.forest n.old) at.0) }
    requires space { let f = N.forest n.old in let s = f.set at.0 in length s.refs < s.capacity }
    ensures inserts { Inserts (N.forest n.old) (N.forest n.new) at.0 leaf None }
    ensures none_met { MeetsNone (N.forest n.old) (N.forest n.new) }
    ensures beside { KeepsBeside (N.forest n.old) (N.forest n.new) (N.beside n.old) (N.beside n.new) }
    ensures later { N.later n.old n.new }
{
    n.alter(at);
    let mut set = n.get(at).copy();
    match set.put(leaf) {
        PutAnswer::Placed => n.store(at, set),
        PutAnswer::Full => unreachable!(),
    }
}

// Adds a leaf to a full set, of which a part goes into a block of its own.
fn part<N: Sets>(n: &mut N, at: NodeId, leaf: Ref)
    requires sound { IsSound (N.forest n.old) }
    requires stands { let f = N.forest n.old in f.stands at.0 ≡ true }
    requires room { let f = N.forest n.old in 63 ≤ f.room }
    requires spare { let f = N.forest n.old in 1 ≤ f.spare }
    requires takes { Takes (N.forest n.old) at.0 leaf }
    requires none { NoneHolds leaf.key (refs (N.forest n.old) at.0) }
    requires full { let f = N.forest n.old in let s = f.set at.0 in length s.refs ≡ s.capacity }
    ensures inserts { Inserts (N.forest n.old) (N.forest n.new) at.0 leaf None }
    ensures none_met { MeetsNone (N.forest n.old) (N.forest n.new) }
    ensures beside { KeepsBeside (N.forest n.old) (N.forest n.new) (N.beside n.old) (N.beside n.new) }
    ensures later { N.later n.old n.new }
{
    n.alter(at);
    let mut set = n.get(at).copy();
    let split = set.split(leaf);
    n.make(at, set, split);
}

// Adds a leaf to the set of a node in which no range holds its key.
fn add<N: Sets>(alloc: Global, n: &mut N, at: NodeId, leaf: Ref) -> Result<(), NoMemory>
    requires sound { IsSound (N.forest n.old) }
    requires stands { let f = N.forest n.old in f.stands at.0 ≡ true }
    requires room { let f = N.forest n.old in 63 ≤ f.room }
    requires takes { Takes (N.forest n.old) at.0 leaf }
    requires none { NoneHolds leaf.key (refs (N.forest n.old) at.0) }
    ensures ok { OnOk result (Inserts (N.forest n.old) (N.forest n.new) at.0 leaf None) }
    ensures walks { OnErr result (Walks (N.forest n.old) (N.forest n.new)) }
    ensures touched { OnErr result (LoadsIn (N.forest n.old) (N.forest n.new) at.0 leaf.key leaf.key) }
    ensures spare { let f = N.forest n.old in OnErr result (f.spare ≡ 0) }
    ensures none_met { MeetsNone (N.forest n.old) (N.forest n.new) }
    ensures beside { KeepsBeside (N.forest n.old) (N.forest n.new) (N.beside n.old) (N.beside n.new) }
    ensures later { N.later n.old n.new }
{
    if n.get(at).is_full() {
        n.ready(alloc, 1)?;
        part(n, at, leaf);
        return Ok(());
    }
    place(n, at, leaf);
    Ok(())
}

/// Adds a leaf to the tree, or puts it in place of the one with its range, which is answered; None exactly where there
/// is none. It goes into the set of one node on the path of its key, and a full set is split by the split rule. The
/// room is at least 63, and is lowered by the number of nodes that are copied and by one for a split, as spare is. No
/// node is unloaded, none off the path of its key is loaded, and paths to all keys stay loaded. Trouble only where a
/// node on the path of its key isn't loaded, or no node is spare, and never a bad block where the tree's leaves are
/// known; nothing but loads took place then. Of the faults of the disk just the one is met that the answer tells.
pub fn insert<N: Sets>(
    alloc: Global,
    n: &mut N,
    root: NodeId,
    leaf: Ref,
) -> Result<Option<Ref>, Trouble>
    requires sound { IsSound (N.forest n.old) }
    requires stands { let f = N.forest n.old in f.stands root.0 ≡ true }
    requires room { let f = N.forest n.old in 63 ≤ f.room }
    requires takes { Takes (N.forest n.old) root.0 leaf }
    ensures ok { IfOk result (Inserts (N.forest n.old) (N.forest n.new) root.0 leaf) }
    ensures old { IfOk result (λ o. (l : List Ref) → LeavesOf (N.forest n.old) root.0 l → o ≡ find leaf.key l) }
    ensures paths { IfOk result (λ o. KeepsPaths (N.forest n.old) (N.forest n.new) root.0 leaf) }
    ensures path { IfOk result (λ o. Reaches (N.forest n.new) leaf.key root.0 (Some leaf)) }
    ensures walks { OnErr result (Walks (N.forest n.old) (N.forest n.new)) }
    ensures err { IfErr result (HasCause (N.forest n.old) (N.forest n.new)) }
    ensures none_met { OnOk result (MeetsNone (N.forest n.old) (N.forest n.new)) }
    ensures met_only { IfErr result (MeetsOnly (N.forest n.old) (N.forest n.new)) }
    ensures touched { OnErr result (LoadsTouched (N.forest n.old) (N.forest n.new) leaf.key leaf.key) }
    ensures tree { OnErr result (LoadsIn (N.forest n.old) (N.forest n.new) root.0 leaf.key leaf.key) }
    ensures unloaded { let f = N.forest n.old in OnErr result (PathUnloaded f root.0 leaf.key ⊎ (f.spare ≡ 0)) }
    ensures good { IfErr result (λ e. (l : List Ref) → LeavesOf (N.forest n.old) root.0 l → IsBad e → ⊥) }
    ensures beside { KeepsBeside (N.forest n.old) (N.forest n.new) (N.beside n.old) (N.beside n.new) }
    ensures later { N.later n.old n.new }
{
    let set = n.get(root);
    let Some(i) = set.find(leaf.key) else {
        return match add(alloc, n, root, leaf) {
            Ok(()) => Ok(None),
            Err(NoMemory) => Err(Trouble::NoMemory),
        };
    };
    if !is_indirect(set.at(i)) {
        return Ok(Some(replace(n, root, i, leaf)));
    }
    let child = load_child(alloc, n, root, i)?;
    insert(alloc, n, child, leaf)
}
