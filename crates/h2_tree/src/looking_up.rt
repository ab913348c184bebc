ghost use Rattle.std.specs.Prelude.{◌≡◌, ℕ, true, List, Option, IfOk, IfErr, OnErr, OnOk};
ghost use Rattle.h2_ref.specs.declared.reference.Ref.{Ref};
ghost use Rattle.h2_set.specs.Ranges.{find};
ghost use Rattle.h2_set.specs.Forest.{Forest, refs, loaded, IsSound, LeavesOf, Reaches};
ghost use Rattle.h2_set.specs.Calls.{Walks, HasCause, IsBad, MeetsNone, MeetsOnly, KeepsBeside};
ghost use Rattle.h2_tree.specs.Changes.{WalksUnder, LoadsTouched, LoadsIn, PathUnloaded};

use h2_ref::{Ref, Trouble};
use h2_set::{NodeId, Sets, is_indirect};
use std::alloc::Global;

/// The leaf whose range holds the key; None exactly where there is none. Afterwards every node on the key's path is
/// loaded, and no other was, in no tree; nodes of other trees, or out of the root's range, stay as they were. Trouble
/// only where one on the path wasn't loaded, and never a bad block where the leaves are known. Of the faults of the
/// disk just the one is met that the answer tells.
pub fn lookup<N: Sets>(
    alloc: Global,
    n: &mut N,
    root: NodeId,
    key: u64,
) -> Result<Option<Ref>, Trouble>
    requires sound { IsSound (N.forest n.old) }
    requires stands { let f = N.forest n.old in f.stands root.0 ≡ true }
    ensures walks { Walks (N.forest n.old) (N.forest n.new) }
    ensures under { WalksUnder (N.forest n.old) (N.forest n.new) root.0 }
    ensures found { IfOk result (λ o. (l : List Ref) → LeavesOf (N.forest n.old) root.0 l → o ≡ find key l) }
    ensures path { IfOk result (Reaches (N.forest n.new) key root.0) }
    ensures err { IfErr result (HasCause (N.forest n.old) (N.forest n.new)) }
    ensures none_met { OnOk result (MeetsNone (N.forest n.old) (N.forest n.new)) }
    ensures met_only { IfErr result (MeetsOnly (N.forest n.old) (N.forest n.new)) }
    ensures touched { LoadsTouched (N.forest n.old) (N.forest n.new) key key }
    ensures tree { LoadsIn (N.forest n.old) (N.forest n.new) root.0 key key }
    ensures unloaded { OnErr result (PathUnloaded (N.forest n.old) root.0 key) }
    ensures good { IfErr result (λ e. (l : List Ref) → LeavesOf (N.forest n.old) root.0 l → IsBad e → ⊥) }
    ensures beside { KeepsBeside (N.forest n.old) (N.forest n.new) (N.beside n.old) (N.beside n.new) }
    ensures later { N.later n.old n.new }
{
    let mut at = root;
    loop {
        let set = n.get(at);
        let Some(i) = set.find(key) else {
            return Ok(None);
        };
        let found = *set.at(i);
        if !is_indirect(&found) {
            return Ok(Some(found));
        }
        at = n.child(alloc, at, i)?;
    }
}
