ghost use Rattle.std.specs.Prelude.{◌≡◌, ◌⊎◌, ℕ, [], ◌∷◌, ◌++◌, true, List, IfOk, IfErr, OnOk, filter};
ghost use Rattle.h2_ref.specs.declared.reference.Ref.{Ref};
ghost use Rattle.h2_set.specs.Forest.{Forest, refs, IsSound, LeavesOf};
ghost use Rattle.h2_set.specs.Calls.{Walks, HasCause, IsBad, MeetsNone, MeetsOnly, KeepsBeside};
ghost use Rattle.h2_tree.specs.Changes.{is_between, touches, RangeUnloaded, LoadsTouched, LoadsIn, Lists};
ghost use Rattle.h2_tree.specs.Listing.{Adds};

use h2_ref::{Ref, Trouble};
use h2_set::{NodeId, Sets, holds, is_indirect};
use std::alloc::Global;

// Appends a leaf whose key is from `from` to `to`.
fn take_leaf(r: Ref, from: u64, to: u64, out: &mut Vec<Ref>) -> Result<(), Trouble>
    ensures err { IfErr result (λ e. e ≡ Trouble.NoMemory) }
    ensures ok { OnOk result (out.new.items ≡ out.old.items ++ filter (is_between from to) (r ∷ [])) }
{
    if r.key < from {
        return Ok(());
    }
    if to < r.key {
        return Ok(());
    }
    match out.push(r) {
        Ok(()) => Ok(()),
        Err(_) => Err(Trouble::NoMemory),
    }
}

// Whether the range of a reference has a key from `from` to `to`.
fn touches(r: &Ref, from: u64, to: u64) -> bool
    ensures { result ≡ touches from to r.now }
{
    if from > to {
        return false;
    }
    if r.key > to {
        return false;
    }
    from < r.key || holds(r, from)
}

// Appends the leaves below a node with keys from `from` to `to`.
fn collect<N: Sets>(
    alloc: Global,
    n: &mut N,
    at: NodeId,
    from: u64,
    to: u64,
    out: &mut Vec<Ref>,
) -> Result<(), Trouble>
    requires sound { IsSound (N.forest n.old) }
    requires stands { let f = N.forest n.old in f.stands at.0 ≡ true }
    ensures ok { OnOk result ((l : List Ref) → LeavesOf (N.forest n.old) at.0 l → out.new.items ≡ out.old.items ++ filter (is_between from to) l) }
    ensures gathers { OnOk result (Adds (N.forest n.new) from to at.0 (refs (N.forest n.new) at.0) out.old.items out.new.items) }
    ensures walks { Walks (N.forest n.old) (N.forest n.new) }
    ensures err { IfErr result (HasCause (N.forest n.old) (N.forest n.new)) }
    ensures none_met { OnOk result (MeetsNone (N.forest n.old) (N.forest n.new)) }
    ensures met_only { IfErr result (MeetsOnly (N.forest n.old) (N.forest n.new)) }
    ensures touched { LoadsIn (N.forest n.old) (N.forest n.new) at.0 from to }
    ensures unloaded { IfErr result (λ e. (e ≡ Trouble.NoMemory) ⊎ RangeUnloaded (N.forest n.old) from to at.0) }
    ensures good { IfErr result (λ e. (l : List Ref) → LeavesOf (N.forest n.old) at.0 l → IsBad e → ⊥) }
    ensures beside { KeepsBeside (N.forest n.old) (N.forest n.new) (N.beside n.old) (N.beside n.new) }
    ensures later { N.later n.old n.new }
{
    let len = n.get(at).len();
    for i in 0..len {
        let r = *n.get(at).at(i);
        if touches(&r, from, to) {
            if is_indirect(&r) {
                let child = n.child(alloc, at, i)?;
                collect(alloc, n, child, from, to, out)?;
            } else {
                take_leaf(r, from, to, out)?;
            }
        }
    }
    Ok(())
}

/// The leaves with keys from `from` to `to`, in order: exactly those that loaded nodes lead to, and every node whose
/// range has such a key is loaded then. No other node is loaded, in no tree; so none is where `from` is above `to`, and
/// there are no such leaves. Trouble only where one of them wasn't loaded, or for want of memory; never a bad block
/// where the tree's leaves are known. Of the faults of the disk just the one is met that the answer tells.
pub fn range<N: Sets>(
    alloc: Global,
    n: &mut N,
    root: NodeId,
    from: u64,
    to: u64,
) -> Result<Vec<Ref>, Trouble>
    requires sound { IsSound (N.forest n.old) }
    requires stands { let f = N.forest n.old in f.stands root.0 ≡ true }
    ensures found { IfOk result (λ v. (l : List Ref) → LeavesOf (N.forest n.old) root.0 l → v.items ≡ filter (is_between from to) l) }
    ensures lists { IfOk result (λ v. Lists (N.forest n.new) root.0 from to v.items) }
    ensures walks { Walks (N.forest n.old) (N.forest n.new) }
    ensures err { IfErr result (HasCause (N.forest n.old) (N.forest n.new)) }
    ensures none_met { OnOk result (MeetsNone (N.forest n.old) (N.forest n.new)) }
    ensures met_only { IfErr result (MeetsOnly (N.forest n.old) (N.forest n.new)) }
    ensures touched { LoadsTouched (N.forest n.old) (N.forest n.new) from to }
    ensures tree { LoadsIn (N.forest n.old) (N.forest n.new) root.0 from to }
    ensures unloaded { IfErr result (λ e. (e ≡ Trouble.NoMemory) ⊎ RangeUnloaded (N.forest n.old) from to root.0) }
    ensures good { IfErr result (λ e. (l : List Ref) → LeavesOf (N.forest n.old) root.0 l → IsBad e → ⊥) }
    ensures beside { KeepsBeside (N.forest n.old) (N.forest n.new) (N.beside n.old) (N.beside n.new) }
    ensures later { N.later n.old n.new }
{
    let mut out = Vec::new(alloc);
    collect(alloc, n, root, from, to, &mut out)?;
    Ok(out)
}
