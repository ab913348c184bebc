ghost use Rattle.std.specs.Prelude.{◌≡◌, ◌%◌, ℕ, Bool, IfOk, IfErr, OnOk, map};
ghost use Rattle.h2_ref.specs.declared.reference.Ref.{Ref};
ghost use Rattle.h2_set.specs.Forest.{IsSound};
ghost use Rattle.h2_set.specs.Calls.{Walks, MeetsNone, KeepsBeside};
ghost use Rattle.h2_tree.specs.Changes.{LoadsIn};
ghost use Rattle.h2_dirkey.specs.Name.{IsName};
ghost use Rattle.h2_dirkey.specs.Key.{least_key, IsPicked};
ghost use Rattle.h2_inode.specs.declared.inode.Inode.{Inode};
ghost use Rattle.h2_inode.specs.declared.kind.InodeKind.TheVariants.{Directory};
ghost use Rattle.h2_inode.specs.Nodes.{held_by, HasInode};
ghost use Rattle.h2_inode.specs.Directory.{Entries};
ghost use Rattle.h2_dir.specs.Finding.{last_key, HoldsEntries, IsBadBlock, FaultMeetsOnly};
ghost use Rattle.h2_dir.specs.Placing.{IsSpot, SpotFails, SpotAgrees};
ghost use Rattle.h2_dir.specs.Walking.{LoadsNone};

use crate::fault::DirFault;
use crate::finding::is_directory;
use crate::searching::search;
use h2_dirkey::{key_of, pick};
use h2_inode::Nodes;
use h2_num::NoMemory;
use h2_ref::{Ref, Trouble};
use h2_set::NodeId;
use std::alloc::Global;

// The keys of the leaves, in their order.
fn keys_of(alloc: Global, leaves: &[Ref]) -> Result<Vec<u64>, NoMemory>
    ensures { IfOk result (λ v. v.items ≡ map (λ (r : Ref). r.key) leaves.now) }
{
    let mut keys = Vec::new(alloc);
    for leaf in leaves {
        keys.push(leaf.key)?;
    }
    Ok(keys)
}

// The least key from `least` on that no leaf has, with the same upper bits. It gives up where all 32768 are used.
fn free_key(alloc: Global, leaves: &[Ref], least: u64) -> Result<u64, NoMemory>
    requires { least % 32768 ≡ 0 }
    ensures { IfOk result (IsPicked least (map (λ (r : Ref). r.key) leaves.now)) }
{
    let used = keys_of(alloc, leaves)?;
    match pick(least, &used) {
        Some(key) => Ok(key),
        None => Err(NoMemory),
    }
}

/// The key that a new entry of a directory with this name gets: the least one with the upper bits of the name's keys
/// that no entry has. The name is one that an entry may have. Afterwards the key's path is loaded, as all paths of the
/// name's keys are; what is loaded and read is as in `find`, and nothing is loaded with NotDir.
///
/// Exists exactly where an entry has the name, NotDir exactly where the inode isn't that of a directory; never NoEntry.
/// Trouble as in `find`. A directory has at most 4096 entries, so one of the 32768 keys is free; where a volume that
/// isn't sound has more, and none is, the call gives up as for want of memory.
pub fn spot<N: Nodes>(alloc: Global, n: &mut N, dir: NodeId, name: &[u8]) -> Result<u64, DirFault>
    requires sound { IsSound (N.forest n.old) }
    requires inode { (i : Inode) × HasInode (N.forest n.old) (held_by N.fields (N.beside n.old)) dir.0 i }
    requires good { IsName name.now }
    ensures walks { Walks (N.forest n.old) (N.forest n.new) }
    ensures spot { IfOk result (IsSpot (N.forest n.new) dir.0 name.now) }
    ensures kind { (i : Inode) → HasInode (N.forest n.old) (held_by N.fields (N.beside n.old)) dir.0 i → IfOk result (λ x. i.kind ≡ Directory) }
    ensures err { (i : Inode) → HasInode (N.forest n.old) (held_by N.fields (N.beside n.old)) dir.0 i → IfErr result (SpotFails (N.forest n.old) (N.forest n.new) i.kind dir.0 name.now) }
    ensures none_met { OnOk result (MeetsNone (N.forest n.old) (N.forest n.new)) }
    ensures met_only { IfErr result (FaultMeetsOnly (N.forest n.old) (N.forest n.new)) }
    ensures agrees { (may : ℕ → ℕ → Bool) (size : ℕ) (entries : Entries) → HoldsEntries (N.forest n.old) (held_by N.fields (N.beside n.old)) (N.told n.old) may dir.0 size entries → SpotAgrees entries name.now result }
    ensures good { (may : ℕ → ℕ → Bool) (size : ℕ) (entries : Entries) → HoldsEntries (N.forest n.old) (held_by N.fields (N.beside n.old)) (N.told n.old) may dir.0 size entries → IfErr result (λ e. IsBadBlock e → ⊥) }
    ensures none { (i : Inode) → HasInode (N.forest n.old) (held_by N.fields (N.beside n.old)) dir.0 i → (i.kind ≡ Directory → ⊥) → LoadsNone (N.forest n.old) (N.forest n.new) }
    ensures touched { LoadsIn (N.forest n.old) (N.forest n.new) dir.0 (least_key name.now) (last_key name.now) }
    ensures beside { KeepsBeside (N.forest n.old) (N.forest n.new) (N.beside n.old) (N.beside n.new) }
    ensures later { N.later n.old n.new }
{
    if !is_directory(n, dir) {
        return Err(DirFault::NotDir);
    }
    let Ok(least) = key_of(name) else {
        unreachable!();
    };
    let candidates = search(alloc, n, dir, name, least)?;
    let None = candidates.place else {
        return Err(DirFault::Exists);
    };
    match free_key(alloc, &candidates.leaves, least) {
        Ok(key) => Ok(key),
        Err(NoMemory) => Err(DirFault::Trouble(Trouble::NoMemory)),
    }
}
