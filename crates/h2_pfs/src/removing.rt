ghost use Rattle.std.specs.Prelude.{◌≡◌, ◌≤◌, ◌+◌, ℕ, List, OnOk, IfErr, OnErr};
ghost use Rattle.h2_set.specs.Forest.{IsSound};
ghost use Rattle.h2_set.specs.Calls.{MeetsNone, KeepsBeside};
ghost use Rattle.h2_inode.specs.Nodes.{held_by, NamesOne, Visits};
ghost use Rattle.h2_inode.specs.Loaded.{StandsAlike, view_of};
ghost use Rattle.h2_inode.specs.PfsList.{ListedPfs};
ghost use Rattle.h2_pfs.specs.SuperRoot.{IsSuperRoot};
ghost use Rattle.h2_pfs.specs.Listing.{HasPfss};
ghost use Rattle.h2_pfs.specs.Meets.{LoadsPfss};
ghost use Rattle.h2_pfs.specs.Removal.{NoneHeld, RemovesPfs, DropsPfs};
ghost use Rattle.h2_pfs.specs.Faults.{IsRemoveFault, IsFaultIn, FaultMeetsOnly};

use crate::fault::PfsFault;
use crate::met::id_in;
use crate::scanning::scan;
use h2_inode::Nodes;
use h2_set::NodeId;
use h2_tree::remove;
use std::alloc::Global;

/// Removes the PFS with this name, and all that belongs to it, where no handle is open in it. NoPfs exactly where no
/// PFS has the name, and otherwise InUse with the number of handles exactly where there are some. Without handles the
/// room is at least 62, and nothing of the PFS is held. The room is lowered by the number of nodes that are copied, at
/// most 62, and the spare nodes stay. Trouble only where a leaf of the super-root's tree wasn't loaded, or an inode
/// that one names, or for want of memory, and never a bad block where the list of PFSs is known. Of the faults of the
/// disk just the one is met that the answer tells. After a refusal nothing but such loads took place, and all trees
/// stand for what they stood for; so it is before the removal too, and after it the trees of other roots stay, but for
/// those that belong to the PFS.
pub fn pfs_remove<N: Nodes>(
    alloc: Global,
    n: &mut N,
    root: NodeId,
    name: &[u8],
    handles: u32,
) -> Result<(), PfsFault>
    requires sound { IsSound (N.forest n.old) }
    requires super_root { IsSuperRoot (N.forest n.old) root.0 }
    requires room { handles ≡ 0 → let f = N.forest n.old in 62 ≤ f.room }
    requires free { handles ≡ 0 → NoneHeld (N.forest n.old) (held_by N.fields (N.beside n.old)) root.0 name.now }
    ensures removes { OnOk result (RemovesPfs (N.forest n.old) (N.forest n.new) (held_by N.fields (N.beside n.old)) (held_by N.fields (N.beside n.new)) (N.told n.old) root.0 name.now) }
    ensures listed { OnOk result (DropsPfs (N.forest n.old) (N.forest n.new) (held_by N.fields (N.beside n.old)) (held_by N.fields (N.beside n.new)) (N.told n.old) (N.told n.new) root.0 name.now) }
    ensures one { NamesOne (N.forest n.old) → NamesOne (N.forest n.new) }
    ensures unused { OnOk result (handles ≡ 0) }
    ensures room { OnOk result (let f = N.forest n.old in let g = N.forest n.new in f.room ≤ g.room + 62) }
    ensures room_falls { OnOk result (let f = N.forest n.old in let g = N.forest n.new in g.room ≤ f.room) }
    ensures spare { OnOk result (let f = N.forest n.old in let g = N.forest n.new in g.spare ≡ f.spare) }
    ensures fault { IfErr result (IsRemoveFault (N.forest n.old) (N.forest n.new) (held_by N.fields (N.beside n.new)) root.0 name.now handles) }
    ensures refused { IfErr result (λ e. (next : ℕ) (pfss : List ListedPfs) → HasPfss (N.forest n.old) (held_by N.fields (N.beside n.old)) (N.told n.old) root.0 next pfss → IsFaultIn name.now pfss e) }
    ensures none_met { OnOk result (MeetsNone (N.forest n.old) (N.forest n.new)) }
    ensures met_only { IfErr result (FaultMeetsOnly (N.forest n.old) (N.forest n.new)) }
    ensures visits { OnErr result (Visits (N.forest n.old) (N.forest n.new)) }
    ensures loads { OnErr result (LoadsPfss (N.forest n.old) (N.forest n.new) root.0) }
    ensures alike { OnErr result (StandsAlike (view_of N.fields (N.forest n.old) (N.beside n.old) (N.told n.old)) (view_of N.fields (N.forest n.new) (N.beside n.new) (N.told n.new))) }
    ensures beside { KeepsBeside (N.forest n.old) (N.forest n.new) (N.beside n.old) (N.beside n.new) }
    ensures later { N.later n.old n.new }
{
    let pfss = scan(alloc, n, root)?;
    let Some(id) = id_in(&pfss, name) else {
        return Err(PfsFault::NoPfs);
    };
    if handles > 0 {
        return Err(PfsFault::InUse(handles));
    }
    remove(alloc, n, root, id)?;
    Ok(())
}
