ghost use Rattle.std.specs.Prelude.{◌≡◌, IfOk, IfErr, OnOk, List, filter};
ghost use Rattle.h2_ref.specs.declared.reference.Ref.{Ref};
ghost use Rattle.h2_set.specs.Forest.{IsSound, LeavesOf};
ghost use Rattle.h2_set.specs.Calls.{IsBad, Walks, HasCause, MeetsNone, MeetsOnly, KeepsBeside};
ghost use Rattle.h2_tree.specs.Changes.{LoadsIn, Lists, is_between};
ghost use Rattle.h2_dirkey.specs.Key.{least_key};
ghost use Rattle.h2_inode.specs.declared.inode.Inode.{Inode};
ghost use Rattle.h2_inode.specs.Nodes.{held_by, HasInode};
ghost use Rattle.h2_dir.specs.Names.{AllNamed, Scanned};
ghost use Rattle.h2_dir.specs.Finding.{last_key, MayLoad};

use crate::naming::scan;
use h2_inode::Nodes;
use h2_ref::{Ref, Trouble};
use h2_set::NodeId;
use h2_tree::range;
use std::alloc::Global;

/// The greatest key with the upper bits of a least one is greater by this.
const COLLISIONS: u64 = 32767;

/// The entries under the keys of a name, in the order of their keys, and the place of the one that has it.
#[derive(Drop)]
pub(crate) struct Candidates {
    pub(crate) leaves: Vec<Ref>,
    pub(crate) place: Option<usize>,
}

/// Looks for a name among the entries under its keys, of which the least is given. Only nodes whose ranges have one of
/// these keys are loaded.
pub(crate) fn search<N: Nodes>(
    alloc: Global,
    n: &mut N,
    dir: NodeId,
    name: &[u8],
    least: u64,
) -> Result<Candidates, Trouble>
    requires sound { IsSound (N.forest n.old) }
    requires inode { (i : Inode) × HasInode (N.forest n.old) (held_by N.fields (N.beside n.old)) dir.0 i }
    requires least { least ≡ least_key name.now }
    ensures walks { Walks (N.forest n.old) (N.forest n.new) }
    ensures told { IfOk result (λ s. (l : List Ref) → LeavesOf (N.forest n.old) dir.0 l → s.leaves.items ≡ filter (is_between (least_key name.now) (last_key name.now)) l) }
    ensures lists { IfOk result (λ s. Lists (N.forest n.new) dir.0 (least_key name.now) (last_key name.now) s.leaves.items) }
    ensures scanned { IfOk result (λ s. Scanned (N.forest n.new) s.leaves.items name.now s.place) }
    ensures err { IfErr result (HasCause (N.forest n.old) (N.forest n.new)) }
    ensures none_met { OnOk result (MeetsNone (N.forest n.old) (N.forest n.new)) }
    ensures met_only { IfErr result (MeetsOnly (N.forest n.old) (N.forest n.new)) }
    ensures touched { LoadsIn (N.forest n.old) (N.forest n.new) dir.0 (least_key name.now) (last_key name.now) }
    ensures unread { IfErr result (MayLoad (N.forest n.old) (N.forest n.new) dir.0 name.now) }
    ensures good { let f = N.forest n.old in IfErr result (λ e. (l : List Ref) → LeavesOf f dir.0 l → AllNamed f l → IsBad e → ⊥) }
    ensures beside { KeepsBeside (N.forest n.old) (N.forest n.new) (N.beside n.old) (N.beside n.new) }
    ensures later { N.later n.old n.new }
{
    let leaves = range(alloc, n, dir, least, least + COLLISIONS)?;
    let place = scan(alloc, n, &leaves, name)?;
    Ok(Candidates { leaves, place })
}
