ghost use Rattle.std.specs.Prelude.{◌≡◌, ℕ, true, List, Some, slice_get, IfOk, IfErr, OnErr, OnOk};
ghost use Rattle.h2_ref.specs.declared.reference.Ref.{Ref};
ghost use Rattle.h2_set.specs.Forest.{refs, loaded, told, IsSound};
ghost use Rattle.h2_set.specs.Calls.{IsIndirectAt, Walks, Loads, Unchanged, HasCause, IsBad, MeetsNone, MeetsOnly, KeepsBeside};

use h2_ref::Trouble;
use h2_set::{NodeId, Sets};
use std::alloc::Global;

/// Loads the node that the reference at place `i` of a node leads to, and no other. An error has its cause and changes
/// nothing; it comes only where that node isn't loaded, and is no bad block where its references are known. Of the
/// faults of the disk just the one is met that the answer tells.
pub(crate) fn load_child<N: Sets>(
    alloc: Global,
    n: &mut N,
    at: NodeId,
    i: usize,
) -> Result<NodeId, Trouble>
    requires sound { IsSound (N.forest n.old) }
    requires stands { let f = N.forest n.old in f.stands at.0 ≡ true }
    requires indirect { IsIndirectAt (refs (N.forest n.old) at.0) i }
    ensures walks { Walks (N.forest n.old) (N.forest n.new) }
    ensures ok { let g = N.forest n.new in IfOk result (λ c. (r : Ref) → slice_get (refs (N.forest n.old) at.0) i ≡ Some r → g.link at.0 r.key ≡ loaded c.0) }
    ensures loads { (r : Ref) → slice_get (refs (N.forest n.old) at.0) i ≡ Some r → Loads (N.forest n.old) (N.forest n.new) at.0 r.key }
    ensures same { OnErr result (Unchanged (N.forest n.old) (N.forest n.new)) }
    ensures err { IfErr result (HasCause (N.forest n.old) (N.forest n.new)) }
    ensures none_met { OnOk result (MeetsNone (N.forest n.old) (N.forest n.new)) }
    ensures met_only { IfErr result (MeetsOnly (N.forest n.old) (N.forest n.new)) }
    ensures unloaded { let f = N.forest n.old in OnErr result ((r : Ref) (c : ℕ) → slice_get (refs f at.0) i ≡ Some r → f.link at.0 r.key ≡ loaded c → ⊥) }
    ensures good { let f = N.forest n.old in IfErr result (λ e. (r : Ref) (l : List Ref) → slice_get (refs f at.0) i ≡ Some r → f.link at.0 r.key ≡ told l → IsBad e → ⊥) }
    ensures beside { KeepsBeside (N.forest n.old) (N.forest n.new) (N.beside n.old) (N.beside n.new) }
    ensures later { N.later n.old n.new }
{
    n.child(alloc, at, i)
}
