ghost use Rattle.std.specs.Prelude.{◌≡◌, ℕ, List, Some, IfOk, IfErr, OnOk};
ghost use Rattle.h2_set.specs.Forest.{IsSound};
ghost use Rattle.h2_set.specs.Calls.{MeetsNone, KeepsBeside};
ghost use Rattle.h2_inode.specs.Nodes.{held_by, Visits};
ghost use Rattle.h2_inode.specs.Loaded.{StandsAlike, view_of};
ghost use Rattle.h2_inode.specs.PfsList.{ListedPfs};
ghost use Rattle.h2_pfs.specs.SuperRoot.{IsSuperRoot};
ghost use Rattle.h2_pfs.specs.Listing.{id_of, HasPfss};
ghost use Rattle.h2_pfs.specs.Meets.{HasId, LoadsPfss};
ghost use Rattle.h2_pfs.specs.Faults.{IsFindFault, IsFaultIn, FaultMeetsOnly};

use crate::fault::PfsFault;
use crate::met::id_in;
use crate::scanning::scan;
use h2_inode::Nodes;
use h2_set::NodeId;
use std::alloc::Global;

/// The id of the PFS with this name, which is the key of its leaf in the super-root's tree. NoPfs exactly where no PFS
/// has the name. Afterwards all leaves of that tree are loaded, and the inodes that they name. Trouble only where one
/// of them wasn't, or for want of memory, and never a bad block where the list of PFSs is known. Of the faults of the
/// disk just the one is met that the answer tells. Nothing but such loads takes place, whatever is answered, and all
/// trees stand for what they stood for.
pub fn pfs_find<N: Nodes>(
    alloc: Global,
    n: &mut N,
    root: NodeId,
    name: &[u8],
) -> Result<u64, PfsFault>
    requires sound { IsSound (N.forest n.old) }
    requires super_root { IsSuperRoot (N.forest n.old) root.0 }
    ensures found { IfOk result (λ id. HasId (N.forest n.new) (held_by N.fields (N.beside n.new)) root.0 name.now (Some id)) }
    ensures listed { IfOk result (λ id. (next : ℕ) (pfss : List ListedPfs) → HasPfss (N.forest n.old) (held_by N.fields (N.beside n.old)) (N.told n.old) root.0 next pfss → id_of name.now pfss ≡ Some id) }
    ensures fault { IfErr result (IsFindFault (N.forest n.old) (N.forest n.new) (held_by N.fields (N.beside n.new)) root.0 name.now) }
    ensures refused { IfErr result (λ e. (next : ℕ) (pfss : List ListedPfs) → HasPfss (N.forest n.old) (held_by N.fields (N.beside n.old)) (N.told n.old) root.0 next pfss → IsFaultIn name.now pfss e) }
    ensures none_met { OnOk result (MeetsNone (N.forest n.old) (N.forest n.new)) }
    ensures met_only { IfErr result (FaultMeetsOnly (N.forest n.old) (N.forest n.new)) }
    ensures visits { Visits (N.forest n.old) (N.forest n.new) }
    ensures loads { LoadsPfss (N.forest n.old) (N.forest n.new) root.0 }
    ensures alike { StandsAlike (view_of N.fields (N.forest n.old) (N.beside n.old) (N.told n.old)) (view_of N.fields (N.forest n.new) (N.beside n.new) (N.told n.new)) }
    ensures beside { KeepsBeside (N.forest n.old) (N.forest n.new) (N.beside n.old) (N.beside n.new) }
    ensures later { N.later n.old n.new }
{
    let pfss = scan(alloc, n, root)?;
    match id_in(&pfss, name) {
        Some(id) => Ok(id),
        None => Err(PfsFault::NoPfs),
    }
}
