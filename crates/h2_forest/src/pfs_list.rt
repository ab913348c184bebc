ghost use Rattle.std.specs.Prelude.{◌≡◌, ◌<◌, map, length, IfOk, Some, None, MatchOption, slice_index_or, is_some};
ghost use Rattle.h2_forest.specs.Forest.{pfs_named, pfs_with_id, trimmed};

use crate::handles::Handles;
use crate::pfs::Pfs;
use h2_num::{Name, NoMemory};
use std::alloc::Global;

/// The PFS with a name, and its place in the list.
pub fn find_pfs<'a>(list: &'a [Pfs], name: &Name) -> Option<(usize, &'a Pfs)>
    ensures { MatchOption result (pfs_named name.now list.now ≡ None) (λ found. (pfs_named name.now list.now ≡ Some (found.0, found.1.now)) × ((found.0 < length list.now) × ((d : Pfs) → slice_index_or list.now found.0 d ≡ found.1.now))) }
{
    for (i, pfs) in list.iter().enumerate() {
        if pfs.name == *name {
            return Some((i, pfs));
        }
    }
    None
}

/// The PFS with an id, and its place in the list.
pub fn find_id(list: &[Pfs], id: u64) -> Option<(usize, &Pfs)>
    ensures { MatchOption result (pfs_with_id id list.now ≡ None) (λ found. (pfs_with_id id list.now ≡ Some (found.0, found.1.now)) × ((found.0 < length list.now) × ((d : Pfs) → slice_index_or list.now found.0 d ≡ found.1.now))) }
{
    for (i, pfs) in list.iter().enumerate() {
        if pfs.id == id {
            return Some((i, pfs));
        }
    }
    None
}

/// Whether a PFS has a name.
pub fn has_name(list: &[Pfs], name: &Name) -> bool
    ensures { result ≡ is_some (pfs_named name.now list.now) }
{
    match find_pfs(list, name) {
        Some(_) => true,
        None => false,
    }
}

/// A copy of a PFS without the files that have no link and that no handle names.
fn trim_pfs(alloc: Global, handles: &Handles, pfs: &Pfs) -> Result<Pfs, NoMemory>
    ensures { IfOk result (λ copy. copy ≡ trimmed handles.now pfs.now) }
{
    let name = pfs.name.copy(alloc)?;
    let table = pfs.table.copy_trimmed(alloc, handles, pfs.id)?;
    Ok(Pfs {
        id: pfs.id,
        name,
        next: pfs.next,
        table,
    })
}

/// Copies of PFSs without the files that have no link and that no handle names.
pub fn trim_pfss(alloc: Global, handles: &Handles, list: &[Pfs]) -> Result<Vec<Pfs>, NoMemory>
    ensures { IfOk result (λ copies. copies.items ≡ map {A = Pfs} {B = Pfs} (trimmed handles.now) list.now) }
{
    let mut copies = Vec::new(alloc);
    for pfs in list {
        copies.push(trim_pfs(alloc, handles, pfs)?)?;
    }
    Ok(copies)
}
