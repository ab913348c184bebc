ghost use Rattle.std.specs.Prelude.{◌≡◌, ◌≤◌, ◌⊎◌, ◌-◌, ◌^◌, ℕ, Bool, true, IfOk, IfErr, OnOk, List, All, Some, IsPermutation, IsSorted};
ghost use Rattle.h2_ref.specs.declared.reference.Ref.{Ref};
ghost use Rattle.h2_set.specs.Forest.{Forest, IsSound};
ghost use Rattle.h2_set.specs.Calls.{IsBad, Walks, Unchanged, HasCause, MeetsNone, MeetsOnly, KeepsBeside};
ghost use Rattle.h2_tree.specs.Changes.{LoadsIn};
ghost use Rattle.h2_inode.specs.declared.inode.Inode.{Inode};
ghost use Rattle.h2_inode.specs.declared.kind.InodeKind.TheVariants.{Directory};
ghost use Rattle.h2_inode.specs.Access.{OneByOne};
ghost use Rattle.h2_inode.specs.Nodes.{held_by, HasInode};
ghost use Rattle.h2_inode.specs.Directory.{Entries};
ghost use Rattle.h2_dir.specs.Names.{IsEntryNamed, AllNamed};
ghost use Rattle.h2_dir.specs.Finding.{HoldsEntries, IsBadBlock, FaultMeetsOnly};
ghost use Rattle.h2_dir.specs.Listing.{IsEntryLeaf, SaysEntry, HasLongName, AnyLongName, IsListing, ListFails, by_name, entries_of};
ghost use Rattle.h2_dir.specs.Walking.{LoadsNone};

use crate::fault::DirFault;
use crate::finding::is_directory;
use h2_inode::Nodes;
use h2_num::{Name, NoMemory};
use h2_ref::{Ref, Trouble};
use h2_set::{NodeId, Sets};
use h2_tree::range;
use std::alloc::{AllocError, Global};

/// The least key of an entry.
const FIRST_KEY: u64 = 1 << 63;

// The name and the number of an entry.
fn entry_of<N: Sets>(alloc: Global, n: &mut N, leaf: &Ref) -> Result<(Name, u64), Trouble>
    requires sound { IsSound (N.forest n.old) }
    requires leaf { IsEntryLeaf leaf.now }
    ensures same { Unchanged (N.forest n.old) (N.forest n.new) }
    ensures says { IfOk result (SaysEntry (N.forest n.old) leaf.now) }
    ensures err { IfErr result (HasCause (N.forest n.old) (N.forest n.new)) }
    ensures none_met { OnOk result (MeetsNone (N.forest n.old) (N.forest n.new)) }
    ensures met_only { IfErr result (MeetsOnly (N.forest n.old) (N.forest n.new)) }
    ensures unread { IfErr result (λ e. (e ≡ Trouble.NoMemory) ⊎ HasLongName leaf.now) }
    ensures good { let f = N.forest n.old in IfErr result (λ e. (own : List ℕ) → IsEntryNamed f leaf.now own → IsBad e → ⊥) }
    ensures beside { KeepsBeside (N.forest n.old) (N.forest n.new) (N.beside n.old) (N.beside n.new) }
    ensures later { N.later n.old n.new }
{
    let Some(entry) = leaf.dirent else {
        unreachable!();
    };
    let told = n.name(alloc, leaf)?;
    match Name::from_slice(alloc, told.as_slice()) {
        Ok(name) => Ok((name, entry.number)),
        Err(NoMemory) => Err(Trouble::NoMemory),
    }
}

// The names and the numbers of entries, in their order.
fn all_named<N: Sets>(alloc: Global, n: &mut N, leaves: &[Ref]) -> Result<Vec<(Name, u64)>, Trouble>
    requires sound { IsSound (N.forest n.old) }
    requires leaves { All IsEntryLeaf leaves.now }
    ensures same { Unchanged (N.forest n.old) (N.forest n.new) }
    ensures each { IfOk result (λ v. OneByOne (SaysEntry (N.forest n.old)) leaves.now v.items) }
    ensures err { IfErr result (HasCause (N.forest n.old) (N.forest n.new)) }
    ensures none_met { OnOk result (MeetsNone (N.forest n.old) (N.forest n.new)) }
    ensures met_only { IfErr result (MeetsOnly (N.forest n.old) (N.forest n.new)) }
    ensures unread { IfErr result (λ e. (e ≡ Trouble.NoMemory) ⊎ AnyLongName leaves.now) }
    ensures good { let f = N.forest n.old in IfErr result (λ e. AllNamed f leaves.now → IsBad e → ⊥) }
    ensures beside { KeepsBeside (N.forest n.old) (N.forest n.new) (N.beside n.old) (N.beside n.new) }
    ensures later { N.later n.old n.new }
{
    let mut all = Vec::new(alloc);
    for i in 0..leaves.len() {
        let named = entry_of(alloc, n, &leaves[i])?;
        match all.push(named) {
            Ok(()) => {}
            Err(_) => return Err(Trouble::NoMemory),
        }
    }
    Ok(all)
}

// Puts entries in byte order of their names, and those of one name in order of their numbers.
fn sort_by_name(all: &mut Vec<(Name, u64)>) -> Result<(), AllocError>
    ensures same { let old = all.old in let new = all.new in IsPermutation old.items new.items }
    ensures sorted { let new = all.new in IfOk result (λ done. IsSorted by_name new.items) }
{
    all.sort()
}

/// The names and the numbers of a directory's entries, in byte order of the names. Each block of the tree is loaded,
/// and the name of each entry with more than 64 bytes is read; no node is loaded but of this tree.
///
/// NotDir exactly where the inode isn't that of a directory, and then nothing is loaded; never NoEntry or Exists.
/// Trouble only where a node that may have entries isn't loaded or an entry has such a name, or for want of memory;
/// never a bad block where the directory's entries are known. Of the faults of the disk just the one is met that the
/// answer tells.
pub fn list<N: Nodes>(alloc: Global, n: &mut N, dir: NodeId) -> Result<Vec<(Name, u64)>, DirFault>
    requires sound { IsSound (N.forest n.old) }
    requires inode { (i : Inode) × HasInode (N.forest n.old) (held_by N.fields (N.beside n.old)) dir.0 i }
    ensures walks { Walks (N.forest n.old) (N.forest n.new) }
    ensures listing { IfOk result (λ v. IsListing (N.forest n.new) dir.0 v.items) }
    ensures entries { (may : ℕ → ℕ → Bool) (size : ℕ) (entries : Entries) → HoldsEntries (N.forest n.old) (held_by N.fields (N.beside n.old)) (N.told n.old) may dir.0 size entries → IfOk result (λ v. v.items ≡ entries_of entries) }
    ensures kind { (i : Inode) → HasInode (N.forest n.old) (held_by N.fields (N.beside n.old)) dir.0 i → IfOk result (λ v. i.kind ≡ Directory) }
    ensures err { (i : Inode) → HasInode (N.forest n.old) (held_by N.fields (N.beside n.old)) dir.0 i → IfErr result (ListFails (N.forest n.old) (N.forest n.new) i.kind dir.0) }
    ensures none_met { OnOk result (MeetsNone (N.forest n.old) (N.forest n.new)) }
    ensures met_only { IfErr result (FaultMeetsOnly (N.forest n.old) (N.forest n.new)) }
    ensures good { (may : ℕ → ℕ → Bool) (size : ℕ) (entries : Entries) → HoldsEntries (N.forest n.old) (held_by N.fields (N.beside n.old)) (N.told n.old) may dir.0 size entries → IfErr result (λ e. IsBadBlock e → ⊥) }
    ensures none { (i : Inode) → HasInode (N.forest n.old) (held_by N.fields (N.beside n.old)) dir.0 i → (i.kind ≡ Directory → ⊥) → LoadsNone (N.forest n.old) (N.forest n.new) }
    ensures touched { LoadsIn (N.forest n.old) (N.forest n.new) dir.0 (2 ^ 63) (2 ^ 64 - 1) }
    ensures beside { KeepsBeside (N.forest n.old) (N.forest n.new) (N.beside n.old) (N.beside n.new) }
    ensures later { N.later n.old n.new }
{
    if !is_directory(n, dir) {
        return Err(DirFault::NotDir);
    }
    let leaves = range(alloc, n, dir, FIRST_KEY, u64::MAX)?;
    let mut all = all_named(alloc, n, &leaves)?;
    match sort_by_name(&mut all) {
        Ok(()) => Ok(all),
        Err(_) => Err(DirFault::Trouble(Trouble::NoMemory)),
    }
}
