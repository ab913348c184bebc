ghost use Rattle.std.specs.Prelude.{◌≡◌, ◌⊎◌, ℕ, List, map, IfOk, IfErr, OnOk};
ghost use Rattle.h2_set.specs.Forest.{IsSound};
ghost use Rattle.h2_set.specs.Calls.{IsBad, MeetsNone, MeetsOnly, KeepsBeside};
ghost use Rattle.h2_inode.specs.Nodes.{held_by, Visits};
ghost use Rattle.h2_inode.specs.Loaded.{StandsAlike, view_of};
ghost use Rattle.h2_inode.specs.PfsList.{ListedPfs};
ghost use Rattle.h2_pfs.specs.SuperRoot.{IsSuperRoot};
ghost use Rattle.h2_pfs.specs.Listing.{name_of, HasPfss};
ghost use Rattle.h2_pfs.specs.Mets.{met_name};
ghost use Rattle.h2_pfs.specs.Meets.{Meets, LoadsPfss};
ghost use Rattle.h2_pfs.specs.Faults.{IsTrouble};

use crate::met::Met;
use crate::scanning::scan;
use h2_inode::Nodes;
use h2_num::{Names, NoMemory};
use h2_ref::Trouble;
use h2_set::NodeId;
use std::alloc::Global;

/// The names of PFSs, in their order.
fn names_of(alloc: Global, pfss: &[Met]) -> Result<Names, NoMemory>
    ensures { IfOk result (λ names. names ≡ map met_name pfss.now) }
{
    let mut names = Names::new(alloc);
    for pfs in pfss {
        names.push(pfs.name.copy(alloc)?)?;
    }
    Ok(names)
}

/// The names of the PFSs, in order of their ids. Afterwards all leaves of the super-root's tree are loaded, and the
/// inodes that they name. Trouble only where one of them wasn't, or for want of memory, and never a bad block where the
/// list is known. Of the faults of the disk just the one is met that the answer tells. Nothing but such loads takes
/// place, whatever is answered, and all trees stand for what they stood for.
pub fn pfs_names<N: Nodes>(alloc: Global, n: &mut N, root: NodeId) -> Result<Names, Trouble>
    requires sound { IsSound (N.forest n.old) }
    requires super_root { IsSuperRoot (N.forest n.old) root.0 }
    ensures names { IfOk result (λ names. (pfss : List ListedPfs) × Meets (N.forest n.new) (held_by N.fields (N.beside n.new)) root.0 pfss × (names ≡ map name_of pfss)) }
    ensures listed { IfOk result (λ names. (next : ℕ) (pfss : List ListedPfs) → HasPfss (N.forest n.old) (held_by N.fields (N.beside n.old)) (N.told n.old) root.0 next pfss → names ≡ map name_of pfss) }
    ensures err { IfErr result (IsTrouble (N.forest n.old) (N.forest n.new) root.0) }
    ensures none_met { OnOk result (MeetsNone (N.forest n.old) (N.forest n.new)) }
    ensures met_only { IfErr result (MeetsOnly (N.forest n.old) (N.forest n.new)) }
    ensures good { IfErr result (λ e. (next : ℕ) (pfss : List ListedPfs) → HasPfss (N.forest n.old) (held_by N.fields (N.beside n.old)) (N.told n.old) root.0 next pfss → IsBad e → ⊥) }
    ensures visits { Visits (N.forest n.old) (N.forest n.new) }
    ensures loads { LoadsPfss (N.forest n.old) (N.forest n.new) root.0 }
    ensures alike { StandsAlike (view_of N.fields (N.forest n.old) (N.beside n.old) (N.told n.old)) (view_of N.fields (N.forest n.new) (N.beside n.new) (N.told n.new)) }
    ensures beside { KeepsBeside (N.forest n.old) (N.forest n.new) (N.beside n.old) (N.beside n.new) }
    ensures later { N.later n.old n.new }
{
    let pfss = scan(alloc, n, root)?;
    match names_of(alloc, &pfss) {
        Ok(names) => Ok(names),
        Err(NoMemory) => Err(Trouble::NoMemory),
    }
}
