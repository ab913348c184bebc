ghost use Rattle.std.specs.Prelude.{◌≡◌, ◌⊎◌, ◌-◌, ◌^◌, ℕ, List, map, slice_get, Some, IfOk, IfErr, OnErr, OnOk};
ghost use Rattle.h2_ref.specs.declared.reference.Ref.{Ref};
ghost use Rattle.h2_set.specs.Forest.{IsSound};
ghost use Rattle.h2_set.specs.Calls.{IsBad, HasCause, MeetsNone, MeetsOnly, KeepsBeside};
ghost use Rattle.h2_inode.specs.Nodes.{held_by, IsInodeLeaf, IsUnloaded, Seeks, Visits};
ghost use Rattle.h2_inode.specs.Access.{OneByOne};
ghost use Rattle.h2_inode.specs.declared.inode.Inode.{Inode};
ghost use Rattle.h2_inode.specs.Loaded.{Tree, at_root, NamesInode, StandsAlike, view_of};
ghost use Rattle.h2_inode.specs.PfsList.{ListedPfs};
ghost use Rattle.h2_pfs.specs.SuperRoot.{IsSuperRoot};
ghost use Rattle.h2_pfs.specs.Listing.{HasPfss, KeepsPfss};
ghost use Rattle.h2_pfs.specs.Mets.{met_of};
ghost use Rattle.h2_pfs.specs.Meets.{Meets, MetBy, AreKnown, AreLeaves, InodeMissing, LoadsPfss};
ghost use Rattle.h2_pfs.specs.Faults.{IsTrouble};

use crate::met::Met;
use h2_inode::Nodes;
use h2_num::{Name, NoMemory};
use h2_ref::{Ref, Trouble};
use h2_set::NodeId;
use h2_tree::range;
use std::alloc::Global;

/// What a leaf of the super-root's tree names, loaded where it wasn't.
fn meet<N: Nodes>(alloc: Global, n: &mut N, root: NodeId, leaf: &Ref) -> Result<Met, Trouble>
    requires sound { IsSound (N.forest n.old) }
    requires leaf { IsInodeLeaf (N.forest n.old) root.0 leaf.now }
    ensures met { IfOk result (λ m. (p : ListedPfs) × MetBy (N.forest n.old) (N.forest n.new) (held_by N.fields (N.beside n.old)) (held_by N.fields (N.beside n.new)) (N.told n.old) root.0 leaf.now p × (m ≡ met_of p)) }
    ensures seeks { IfOk result (λ m. let r : Ref = leaf.now in (c : ℕ) × Seeks (N.forest n.old) (N.forest n.new) root.0 r.key c) }
    ensures visits { Visits (N.forest n.old) (N.forest n.new) }
    ensures loads { LoadsPfss (N.forest n.old) (N.forest n.new) root.0 }
    ensures alike { StandsAlike (view_of N.fields (N.forest n.old) (N.beside n.old) (N.told n.old)) (view_of N.fields (N.forest n.new) (N.beside n.new) (N.told n.new)) }
    ensures err { IfErr result (HasCause (N.forest n.old) (N.forest n.new)) }
    ensures none_met { OnOk result (MeetsNone (N.forest n.old) (N.forest n.new)) }
    ensures met_only { IfErr result (MeetsOnly (N.forest n.old) (N.forest n.new)) }
    ensures unloaded { IfErr result (λ e. (e ≡ Trouble.NoMemory) ⊎ (let r : Ref = leaf.now in IsUnloaded (N.forest n.old) root.0 r.key)) }
    ensures good { IfErr result (λ e. (i : Inode) (t : Tree) → NamesInode (N.forest n.old) (held_by N.fields (N.beside n.old)) (N.told n.old) (at_root root.0) leaf.now i t → IsBad e → ⊥) }
    ensures beside { KeepsBeside (N.forest n.old) (N.forest n.new) (N.beside n.old) (N.beside n.new) }
    ensures later { N.later n.old n.new }
{
    let at = n.seek(alloc, root, leaf)?;
    match Name::from_slice(alloc, n.inode(at).name.as_slice()) {
        Ok(name) => Ok(Met { id: leaf.key, name }),
        Err(NoMemory) => Err(Trouble::NoMemory),
    }
}

/// What leaves of the super-root's tree name, in their order.
fn meet_all<N: Nodes>(
    alloc: Global,
    n: &mut N,
    root: NodeId,
    leaves: &[Ref],
) -> Result<Vec<Met>, Trouble>
    requires sound { IsSound (N.forest n.old) }
    requires leaves { AreLeaves (N.forest n.old) root.0 leaves.now }
    ensures met { IfOk result (λ v. (pfss : List ListedPfs) × OneByOne (MetBy (N.forest n.old) (N.forest n.new) (held_by N.fields (N.beside n.old)) (held_by N.fields (N.beside n.new)) (N.told n.old) root.0) leaves.now pfss × (v.items ≡ map met_of pfss)) }
    ensures visits { Visits (N.forest n.old) (N.forest n.new) }
    ensures loads { LoadsPfss (N.forest n.old) (N.forest n.new) root.0 }
    ensures alike { StandsAlike (view_of N.fields (N.forest n.old) (N.beside n.old) (N.told n.old)) (view_of N.fields (N.forest n.new) (N.beside n.new) (N.told n.new)) }
    ensures err { IfErr result (HasCause (N.forest n.old) (N.forest n.new)) }
    ensures none_met { OnOk result (MeetsNone (N.forest n.old) (N.forest n.new)) }
    ensures met_only { IfErr result (MeetsOnly (N.forest n.old) (N.forest n.new)) }
    ensures unloaded { IfErr result (λ e. (e ≡ Trouble.NoMemory) ⊎ InodeMissing (N.forest n.old) (N.forest n.old) root.0) }
    ensures good { IfErr result (λ e. AreKnown (N.forest n.old) (held_by N.fields (N.beside n.old)) (N.told n.old) root.0 leaves.now → IsBad e → ⊥) }
    ensures beside { KeepsBeside (N.forest n.old) (N.forest n.new) (N.beside n.old) (N.beside n.new) }
    ensures later { N.later n.old n.new }
{
    let mut out = Vec::new(alloc);
    for i in 0..leaves.len() {
        let met = meet(alloc, n, root, &leaves[i])?;
        match out.push(met) {
            Ok(()) => {}
            Err(_) => return Err(Trouble::NoMemory),
        }
    }
    Ok(out)
}

/// The PFSs of a volume, in order of their ids: the leaves of the super-root's tree, and the inodes that they name,
/// loaded where they weren't.
pub(crate) fn scan<N: Nodes>(alloc: Global, n: &mut N, root: NodeId) -> Result<Vec<Met>, Trouble>
    requires sound { IsSound (N.forest n.old) }
    requires super_root { IsSuperRoot (N.forest n.old) root.0 }
    ensures met { IfOk result (λ v. (pfss : List ListedPfs) × Meets (N.forest n.new) (held_by N.fields (N.beside n.new)) root.0 pfss × (v.items ≡ map met_of pfss) × KeepsPfss (N.forest n.old) (N.forest n.new) (held_by N.fields (N.beside n.old)) (held_by N.fields (N.beside n.new)) (N.told n.old) (N.told n.new) root.0 pfss) }
    ensures visits { Visits (N.forest n.old) (N.forest n.new) }
    ensures loads { LoadsPfss (N.forest n.old) (N.forest n.new) root.0 }
    ensures alike { StandsAlike (view_of N.fields (N.forest n.old) (N.beside n.old) (N.told n.old)) (view_of N.fields (N.forest n.new) (N.beside n.new) (N.told n.new)) }
    ensures err { IfErr result (IsTrouble (N.forest n.old) (N.forest n.new) root.0) }
    ensures none_met { OnOk result (MeetsNone (N.forest n.old) (N.forest n.new)) }
    ensures met_only { IfErr result (MeetsOnly (N.forest n.old) (N.forest n.new)) }
    ensures good { IfErr result (λ e. (next : ℕ) (pfss : List ListedPfs) → HasPfss (N.forest n.old) (held_by N.fields (N.beside n.old)) (N.told n.old) root.0 next pfss → IsBad e → ⊥) }
    ensures beside { KeepsBeside (N.forest n.old) (N.forest n.new) (N.beside n.old) (N.beside n.new) }
    ensures later { N.later n.old n.new }
{
    let leaves = range(alloc, n, root, 0, u64::MAX)?;
    meet_all(alloc, n, root, &leaves)
}
