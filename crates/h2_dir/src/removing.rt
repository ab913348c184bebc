ghost use Rattle.std.specs.Prelude.{◌≡◌, ◌≤◌, ◌+◌, ◌-◌, ℕ, Bool, true, List, Some, None, IsSome};
ghost use Rattle.std.specs.FinMap.{get, remove};
ghost use Rattle.h2_ref.specs.declared.reference.Ref.{Ref};
ghost use Rattle.h2_ref.specs.declared.reference.Dirent.{Dirent};
ghost use Rattle.h2_set.specs.Ranges.{without};
ghost use Rattle.h2_set.specs.Forest.{IsSound, LeavesOf, Reaches};
ghost use Rattle.h2_set.specs.Calls.{MeetsNone, KeepsBeside};
ghost use Rattle.h2_tree.specs.Changes.{IsFree, Removes, KeepsPaths};
ghost use Rattle.h2_inode.specs.declared.inode.Inode.{Inode};
ghost use Rattle.h2_inode.specs.Nodes.{held_by, HasInode, NamesOne, KeepsOthersBeside};
ghost use Rattle.h2_inode.specs.Loaded.{view_of};
ghost use Rattle.h2_inode.specs.Others.{RenewsOthers};
ghost use Rattle.h2_inode.specs.Directory.{Entries};
ghost use Rattle.h2_dir.specs.Finding.{HoldsEntries, IsFound};
ghost use Rattle.h2_dir.specs.Changing.{IsDirectoryRoot, TakesAway, TakesWithin, with_entries};
ghost use Rattle.h2_dir.specs.Others.{KeepsOtherTrees, KeepsOtherEntries};

use crate::resizing::resize;
use h2_inode::Nodes;
use h2_ref::{Dirent, Ref};
use h2_set::{NodeId, Sets};
use h2_tree::remove;
use std::alloc::Global;

// The leaf that is there.
fn given(taken: Option<Ref>) -> Ref
    requires { IsSome taken }
    ensures { taken ≡ Some result }
{
    let Some(leaf) = taken else {
        unreachable!();
    };
    leaf
}

// One less, or none.
fn one_less(size: u64) -> u64
    ensures { result ≡ size - 1 }
{
    if size == 0 { 0 } else { size - 1 }
}

// Takes the leaf out to which the loaded path of its key leads.
fn take_out<N: Sets>(alloc: Global, n: &mut N, root: NodeId, key: u64) -> Ref
    requires sound { IsSound (N.forest n.old) }
    requires stands { let f = N.forest n.old in f.stands root.0 ≡ true }
    requires top { let f = N.forest n.old in f.root root.0 ≡ root.0 }
    requires room { let f = N.forest n.old in 62 ≤ f.room }
    requires free { IsFree (N.forest n.old) root.0 key }
    requires there { (leaf : Ref) × Reaches (N.forest n.old) key root.0 (Some leaf) × (leaf.key ≡ key) }
    ensures removes { Removes (N.forest n.old) (N.forest n.new) root.0 result }
    ensures none_met { MeetsNone (N.forest n.old) (N.forest n.new) }
    ensures was { Reaches (N.forest n.old) key root.0 (Some result) }
    ensures key { result.key ≡ key }
    ensures paths { KeepsPaths (N.forest n.old) (N.forest n.new) root.0 result }
    ensures path { Reaches (N.forest n.new) key root.0 None }
    ensures beside { KeepsBeside (N.forest n.old) (N.forest n.new) (N.beside n.old) (N.beside n.new) }
    ensures later { N.later n.old n.new }
{
    let Ok(taken) = remove(alloc, n, root, key) else {
        unreachable!();
    };
    given(taken)
}

// What an entry says.
fn says(leaf: Ref) -> Dirent
    requires { (entry : Dirent) × (leaf.dirent ≡ Some entry) }
    ensures { leaf.dirent ≡ Some result }
{
    match leaf.dirent {
        Some(entry) => entry,
        None => unreachable!(),
    }
}

/// Takes the entry under a key out of a directory, and lowers the directory's size by one, unless it is 0. What the
/// entry said is answered. The directory stands for its entries without the one of this name.
///
/// The entry is there, its path is loaded, and the room is at least 62, and lowered by at most this. It can't be
/// refused, and meets no bad block. Of the tree nothing goes but indirect blocks that would be left empty, and loaded
/// paths to other keys stay. Other directories and files stay the same, and the trees of PFSs do, but for where the
/// blocks of inodes and indirect blocks lie. No root comes, and leaves that named one root each still do.
pub fn remove_at<N: Nodes>(alloc: Global, n: &mut N, dir: NodeId, key: u64) -> Dirent
    requires sound { IsSound (N.forest n.old) }
    requires directory { IsDirectoryRoot (N.forest n.old) (held_by N.fields (N.beside n.old)) dir.0 }
    requires there { (leaf : Ref) × Reaches (N.forest n.old) key dir.0 (Some leaf) }
    requires room { let f = N.forest n.old in 62 ≤ f.room }
    ensures takes { (leaf : Ref) → Reaches (N.forest n.old) key dir.0 (Some leaf) → TakesAway (N.forest n.old) (N.forest n.new) dir.0 leaf }
    ensures says { (leaf : Ref) → Reaches (N.forest n.old) key dir.0 (Some leaf) → leaf.dirent ≡ Some result }
    ensures inode { let g = N.forest n.new in (i : Inode) → HasInode (N.forest n.old) (held_by N.fields (N.beside n.old)) dir.0 i → HasInode g (held_by N.fields (N.beside n.new)) dir.0 (with_entries i (i.size - 1) (g.set dir.0)) }
    ensures leaves { (l : List Ref) → LeavesOf (N.forest n.old) dir.0 l → LeavesOf (N.forest n.new) dir.0 (without key l) }
    ensures entries { (may : ℕ → ℕ → Bool) (size : ℕ) (entries : Entries) (name : List ℕ) (entry : Dirent) → HoldsEntries (N.forest n.old) (held_by N.fields (N.beside n.old)) (N.told n.old) may dir.0 size entries → IsFound (N.forest n.old) dir.0 name key entry
        → (get entries name ≡ Some result.number) × HoldsEntries (N.forest n.new) (held_by N.fields (N.beside n.new)) (N.told n.new) may dir.0 (size - 1) (remove entries name) }
    ensures path { Reaches (N.forest n.new) key dir.0 None }
    ensures paths { (leaf : Ref) → Reaches (N.forest n.old) key dir.0 (Some leaf) → KeepsPaths (N.forest n.old) (N.forest n.new) dir.0 leaf }
    ensures others { KeepsOtherTrees (view_of N.fields (N.forest n.old) (N.beside n.old) (N.told n.old)) (view_of N.fields (N.forest n.new) (N.beside n.new) (N.told n.new)) dir.0 }
    ensures above { RenewsOthers (view_of N.fields (N.forest n.old) (N.beside n.old) (N.told n.old)) (view_of N.fields (N.forest n.new) (N.beside n.new) (N.told n.new)) dir.0 }
    ensures other_entries { KeepsOtherEntries (N.forest n.old) (N.forest n.new) (held_by N.fields (N.beside n.old)) (held_by N.fields (N.beside n.new)) (N.told n.old) (N.told n.new) dir.0 }
    ensures one { NamesOne (N.forest n.old) → NamesOne (N.forest n.new) }
    ensures none_met { MeetsNone (N.forest n.old) (N.forest n.new) }
    ensures beside { KeepsOthersBeside (N.forest n.old) (N.forest n.new) dir.0 (N.beside n.old) (N.beside n.new) }
    ensures spends { let f = N.forest n.old in let g = N.forest n.new in (f.room ≤ g.room + 62) × (g.spare ≡ f.spare) }
    ensures falls { let f = N.forest n.old in let g = N.forest n.new in g.room ≤ f.room }
    ensures exact { (leaf : Ref) → Reaches (N.forest n.old) key dir.0 (Some leaf) → TakesWithin (N.forest n.old) (N.forest n.new) dir.0 leaf }
    ensures later { N.later n.old n.new }
{
    let size = n.inode(dir).size;
    let leaf = take_out(alloc, n, dir, key);
    resize(n, dir, one_less(size));
    says(leaf)
}
