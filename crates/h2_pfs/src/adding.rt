ghost use Rattle.std.specs.Prelude.{◌≡◌, ◌≤◌, ◌+◌, ℕ, List, None, OnOk, IfErr, OnErr};
ghost use Rattle.h2_ref.specs.declared.reference.Ref.{Ref};
ghost use Rattle.h2_set.specs.Forest.{IsSound, Reaches};
ghost use Rattle.h2_set.specs.Calls.{MeetsNone, KeepsBeside};
ghost use Rattle.h2_tree.specs.Changes.{Takes};
ghost use Rattle.h2_inode.specs.declared.inode.Inode.{Inode};
ghost use Rattle.h2_inode.specs.declared.kind.InodeKind.{InodeKind};
ghost use Rattle.h2_inode.specs.Nodes.{held_by, IsPlantable, NamesOne, Visits};
ghost use Rattle.h2_inode.specs.Loaded.{StandsAlike, view_of};
ghost use Rattle.h2_inode.specs.PfsList.{ListedPfs};
ghost use Rattle.h2_pfs.specs.SuperRoot.{IsSuperRoot};
ghost use Rattle.h2_pfs.specs.Listing.{HasPfss, KeepsPfss};
ghost use Rattle.h2_pfs.specs.Meets.{LoadsPfss};
ghost use Rattle.h2_pfs.specs.Addition.{IsFreeId, pfs_of, HasSpace, Founds, AddsPfs, PutsPfs};
ghost use Rattle.h2_pfs.specs.Faults.{IsSpaceFault, IsAddFault, IsFaultIn, FaultMeetsOnly};

use crate::fault::PfsFault;
use crate::met::id_in;
use crate::scanning::scan;
use h2_inode::{Inode, Nodes};
use h2_num::NoMemory;
use h2_ref::{Ref, Trouble};
use h2_set::NodeId;
use h2_tree::{insert, lookup};
use std::alloc::Global;

/// A volume has at most this many PFSs.
const PFSS: usize = 64;

/// Tests that one more PFS may have the name.
fn make_space<N: Nodes>(alloc: Global, n: &mut N, root: NodeId, name: &[u8]) -> Result<(), PfsFault>
    requires sound { IsSound (N.forest n.old) }
    requires super_root { IsSuperRoot (N.forest n.old) root.0 }
    ensures space { OnOk result ((s : HasSpace (N.forest n.new) (held_by N.fields (N.beside n.new)) root.0 name.now) × KeepsPfss (N.forest n.old) (N.forest n.new) (held_by N.fields (N.beside n.old)) (held_by N.fields (N.beside n.new)) (N.told n.old) (N.told n.new) root.0 s.pfss) }
    ensures fault { IfErr result (IsSpaceFault (N.forest n.old) (N.forest n.new) (held_by N.fields (N.beside n.new)) root.0 name.now) }
    ensures refused { IfErr result (λ e. (next : ℕ) (pfss : List ListedPfs) → HasPfss (N.forest n.old) (held_by N.fields (N.beside n.old)) (N.told n.old) root.0 next pfss → IsFaultIn name.now pfss e) }
    ensures none_met { OnOk result (MeetsNone (N.forest n.old) (N.forest n.new)) }
    ensures met_only { IfErr result (FaultMeetsOnly (N.forest n.old) (N.forest n.new)) }
    ensures visits { Visits (N.forest n.old) (N.forest n.new) }
    ensures loads { LoadsPfss (N.forest n.old) (N.forest n.new) root.0 }
    ensures alike { StandsAlike (view_of N.fields (N.forest n.old) (N.beside n.old) (N.told n.old)) (view_of N.fields (N.forest n.new) (N.beside n.new) (N.told n.new)) }
    ensures beside { KeepsBeside (N.forest n.old) (N.forest n.new) (N.beside n.old) (N.beside n.new) }
    ensures later { N.later n.old n.new }
{
    let pfss = scan(alloc, n, root)?;
    if id_in(&pfss, name).is_some() {
        return Err(PfsFault::Exists);
    }
    if pfss.len() >= PFSS {
        return Err(PfsFault::Full);
    }
    Ok(())
}

/// Adds a leaf whose key's path is loaded and leads to none, and plants the inode that it names.
fn found<N: Nodes>(
    alloc: Global,
    n: &mut N,
    root: NodeId,
    leaf: Ref,
    inode: Inode,
) -> Result<(), NoMemory>
    requires sound { IsSound (N.forest n.old) }
    requires super_root { IsSuperRoot (N.forest n.old) root.0 }
    requires takes { Takes (N.forest n.old) root.0 leaf }
    requires number { inode.number ≡ leaf.key }
    requires plantable { IsPlantable inode }
    requires room { let f = N.forest n.old in 63 ≤ f.room }
    requires path { Reaches (N.forest n.old) leaf.key root.0 None }
    ensures founds { OnOk result (Founds (N.forest n.old) (N.forest n.new) (held_by N.fields (N.beside n.new)) root.0 leaf inode) }
    ensures none_met { MeetsNone (N.forest n.old) (N.forest n.new) }
    ensures visits { OnErr result (Visits (N.forest n.old) (N.forest n.new)) }
    ensures loads { OnErr result (LoadsPfss (N.forest n.old) (N.forest n.new) root.0) }
    ensures alike { OnErr result (StandsAlike (view_of N.fields (N.forest n.old) (N.beside n.old) (N.told n.old)) (view_of N.fields (N.forest n.new) (N.beside n.new) (N.told n.new))) }
    ensures beside { KeepsBeside (N.forest n.old) (N.forest n.new) (N.beside n.old) (N.beside n.new) }
    ensures later { N.later n.old n.new }
{
    n.ready(alloc, 2)?;
    match insert(alloc, n, root, leaf) {
        Ok(_) => {}
        Err(_) => return Err(NoMemory),
    }
    n.plant(root, &leaf, inode);
    Ok(())
}

/// Adds the PFS of this inode, whose id is the key of the leaf. Exists exactly where a PFS has the name, and otherwise
/// Full exactly where there are 64 PFSs or more. No leaf of the super-root's tree has the key, and the room is at least
/// 63. The room is lowered by at most 63, and the spare nodes by at most 2: by one for the inode, and by one for a
/// split. Where two are spare, none is made. Trouble only where a leaf of that tree wasn't loaded, or an inode that one
/// names, or the path of the key, or for want of memory, and never a bad block where the list of PFSs is known. Of the
/// faults of the disk just the one is met that the answer tells. After a refusal nothing but such loads took place, and
/// all trees stand for what they stood for; so it is before the addition too, and after it the trees of other roots
/// stay.
pub fn pfs_add<N: Nodes>(
    alloc: Global,
    n: &mut N,
    root: NodeId,
    leaf: Ref,
    inode: Inode,
) -> Result<(), PfsFault>
    requires sound { IsSound (N.forest n.old) }
    requires super_root { IsSuperRoot (N.forest n.old) root.0 }
    requires takes { Takes (N.forest n.old) root.0 leaf }
    requires pfs { inode.kind ≡ InodeKind.Pfs }
    requires number { inode.number ≡ leaf.key }
    requires plantable { IsPlantable inode }
    requires room { let f = N.forest n.old in 63 ≤ f.room }
    requires free { IsFreeId (N.forest n.old) root.0 leaf.key }
    ensures adds { OnOk result (AddsPfs (N.forest n.old) (N.forest n.new) (held_by N.fields (N.beside n.old)) (held_by N.fields (N.beside n.new)) (N.told n.old) root.0 leaf inode) }
    ensures listed { OnOk result (PutsPfs (N.forest n.old) (N.forest n.new) (held_by N.fields (N.beside n.old)) (held_by N.fields (N.beside n.new)) (N.told n.old) (N.told n.new) root.0 (pfs_of inode)) }
    ensures one { NamesOne (N.forest n.old) → NamesOne (N.forest n.new) }
    ensures room { OnOk result (let f = N.forest n.old in let g = N.forest n.new in f.room ≤ g.room + 63) }
    ensures spare { OnOk result (let f = N.forest n.old in let g = N.forest n.new in f.spare ≤ g.spare + 2) }
    ensures room_falls { OnOk result (let f = N.forest n.old in let g = N.forest n.new in g.room ≤ f.room) }
    ensures spare_falls { OnOk result (let f = N.forest n.old in let g = N.forest n.new in 2 ≤ f.spare → g.spare + 1 ≤ f.spare) }
    ensures fault { IfErr result (IsAddFault (N.forest n.old) (N.forest n.new) (held_by N.fields (N.beside n.new)) root.0 inode.name leaf.key) }
    ensures refused { IfErr result (λ e. (next : ℕ) (pfss : List ListedPfs) → HasPfss (N.forest n.old) (held_by N.fields (N.beside n.old)) (N.told n.old) root.0 next pfss → IsFaultIn inode.name pfss e) }
    ensures none_met { OnOk result (MeetsNone (N.forest n.old) (N.forest n.new)) }
    ensures met_only { IfErr result (FaultMeetsOnly (N.forest n.old) (N.forest n.new)) }
    ensures visits { OnErr result (Visits (N.forest n.old) (N.forest n.new)) }
    ensures loads { OnErr result (LoadsPfss (N.forest n.old) (N.forest n.new) root.0) }
    ensures alike { OnErr result (StandsAlike (view_of N.fields (N.forest n.old) (N.beside n.old) (N.told n.old)) (view_of N.fields (N.forest n.new) (N.beside n.new) (N.told n.new))) }
    ensures beside { KeepsBeside (N.forest n.old) (N.forest n.new) (N.beside n.old) (N.beside n.new) }
    ensures later { N.later n.old n.new }
{
    lookup(alloc, n, root, leaf.key)?;
    make_space(alloc, n, root, inode.name.as_slice())?;
    match found(alloc, n, root, leaf, inode) {
        Ok(()) => Ok(()),
        Err(NoMemory) => Err(PfsFault::Trouble(Trouble::NoMemory)),
    }
}
