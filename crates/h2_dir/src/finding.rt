ghost use Rattle.std.specs.Prelude.{◌≡◌, ◌↔◌, ℕ, Bool, IsTrue, IfOk, IfErr, OnOk, Some, None, Err, slice_get, length};
ghost use Rattle.h2_ref.specs.declared.reference.Ref.{Ref};
ghost use Rattle.h2_ref.specs.declared.reference.Dirent.{Dirent};
ghost use Rattle.h2_set.specs.Forest.{IsSound};
ghost use Rattle.h2_set.specs.Calls.{Walks, MeetsNone, KeepsBeside};
ghost use Rattle.h2_tree.specs.Changes.{LoadsIn};
ghost use Rattle.h2_dirkey.specs.Key.{least_key};
ghost use Rattle.h2_inode.specs.declared.inode.Inode.{Inode};
ghost use Rattle.h2_inode.specs.declared.kind.InodeKind.TheVariants.{Directory};
ghost use Rattle.h2_inode.specs.Nodes.{held_by, HasInode};
ghost use Rattle.h2_inode.specs.Directory.{Entries};
ghost use Rattle.h2_dir.specs.Finding.{last_key, HoldsEntries, IsFound, FindFails, AgreesOn, IsBadBlock, FaultMeetsOnly};
ghost use Rattle.h2_dir.specs.Walking.{LoadsNone};

use crate::fault::DirFault;
use crate::searching::search;
use h2_dirkey::key_of;
use h2_inode::{InodeKind, Nodes};
use h2_ref::{Dirent, Ref};
use h2_set::NodeId;
use std::alloc::Global;

/// Whether a root is that of a directory's inode.
pub(crate) fn is_directory<N: Nodes>(n: &N, at: NodeId) -> bool
    requires { (i : Inode) × HasInode (N.forest n.now) (held_by N.fields (N.beside n.now)) at.0 i }
    ensures { (i : Inode) → HasInode (N.forest n.now) (held_by N.fields (N.beside n.now)) at.0 i → IsTrue result ↔ (i.kind ≡ Directory) }
{
    matches!(n.inode(at).kind, InodeKind::Directory)
}

// The key of a leaf that is an entry, and what the entry says.
fn entry_at(leaves: &[Ref], i: usize) -> (u64, Dirent)
    requires { (leaf : Ref) × (slice_get leaves.now i ≡ Some leaf) × ((entry : Dirent) × (leaf.dirent ≡ Some entry)) }
    ensures { (leaf : Ref) → slice_get leaves.now i ≡ Some leaf → (leaf.key ≡ result.0) × (leaf.dirent ≡ Some result.1) }
{
    let leaf = leaves[i];
    match leaf.dirent {
        Some(entry) => (leaf.key, entry),
        None => unreachable!(),
    }
}

/// The entry of a directory that has the name, with its key. Afterwards the paths of all keys that the name may have
/// are loaded; no node is loaded of another tree, or whose range has none of them, and only the names of entries under
/// these keys are read, those of more than 64 bytes and of this length. NoEntry exactly where there is none, as for a
/// name that no entry may have; NotDir exactly where the inode isn't that of a directory, and then nothing is loaded;
/// never Exists. Trouble only where one of these nodes isn't loaded or such a name was to be read, or for want of
/// memory; never a bad block where the directory's entries are known. Of the faults of the disk just the one is met
/// that the answer tells.
pub fn find<N: Nodes>(
    alloc: Global,
    n: &mut N,
    dir: NodeId,
    name: &[u8],
) -> Result<(u64, Dirent), DirFault>
    requires sound { IsSound (N.forest n.old) }
    requires inode { (i : Inode) × HasInode (N.forest n.old) (held_by N.fields (N.beside n.old)) dir.0 i }
    ensures walks { Walks (N.forest n.old) (N.forest n.new) }
    ensures found { IfOk result (λ x. IsFound (N.forest n.new) dir.0 name.now x.0 x.1) }
    ensures kind { (i : Inode) → HasInode (N.forest n.old) (held_by N.fields (N.beside n.old)) dir.0 i → IfOk result (λ x. i.kind ≡ Directory) }
    ensures err { (i : Inode) → HasInode (N.forest n.old) (held_by N.fields (N.beside n.old)) dir.0 i → IfErr result (FindFails (N.forest n.old) (N.forest n.new) i.kind dir.0 name.now) }
    ensures none_met { OnOk result (MeetsNone (N.forest n.old) (N.forest n.new)) }
    ensures met_only { IfErr result (FaultMeetsOnly (N.forest n.old) (N.forest n.new)) }
    ensures agrees { (may : ℕ → ℕ → Bool) (size : ℕ) (entries : Entries) → HoldsEntries (N.forest n.old) (held_by N.fields (N.beside n.old)) (N.told n.old) may dir.0 size entries → AgreesOn entries name.now result }
    ensures good { (may : ℕ → ℕ → Bool) (size : ℕ) (entries : Entries) → HoldsEntries (N.forest n.old) (held_by N.fields (N.beside n.old)) (N.told n.old) may dir.0 size entries → IfErr result (λ e. IsBadBlock e → ⊥) }
    ensures touched { LoadsIn (N.forest n.old) (N.forest n.new) dir.0 (least_key name.now) (last_key name.now) }
    ensures none { (i : Inode) → HasInode (N.forest n.old) (held_by N.fields (N.beside n.old)) dir.0 i → (i.kind ≡ Directory → ⊥) → LoadsNone (N.forest n.old) (N.forest n.new) }
    ensures beside { KeepsBeside (N.forest n.old) (N.forest n.new) (N.beside n.old) (N.beside n.new) }
    ensures later { N.later n.old n.new }
{
    if !is_directory(n, dir) {
        return Err(DirFault::NotDir);
    }
    let Ok(least) = key_of(name) else {
        return Err(DirFault::NoEntry);
    };
    let candidates = search(alloc, n, dir, name, least)?;
    match candidates.place {
        Some(i) => Ok(entry_at(&candidates.leaves, i)),
        None => Err(DirFault::NoEntry),
    }
}
