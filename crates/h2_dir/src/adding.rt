ghost use Rattle.std.specs.Prelude.{◌≡◌, ◌≤◌, ◌+◌, ℕ, Bool, true, List, Some, None};
ghost use Rattle.std.specs.FinMap.{get, insert};
ghost use Rattle.h2_ref.specs.Ref.{IsValid};
ghost use Rattle.h2_ref.specs.declared.reference.Ref.{Ref};
ghost use Rattle.h2_set.specs.Ranges.{put};
ghost use Rattle.h2_set.specs.Forest.{IsSound, LeavesOf, Reaches};
ghost use Rattle.h2_set.specs.Calls.{MeetsNone, KeepsBeside};
ghost use Rattle.h2_tree.specs.Changes.{Takes, Inserts, KeepsPaths};
ghost use Rattle.h2_dirkey.specs.Key.{IsNameUnder};
ghost use Rattle.h2_inode.specs.declared.inode.Inode.{Inode};
ghost use Rattle.h2_inode.specs.Nodes.{held_by, HasInode, NamesOne, KeepsOthersBeside};
ghost use Rattle.h2_inode.specs.Loaded.{view_of};
ghost use Rattle.h2_inode.specs.Others.{RenewsOthers};
ghost use Rattle.h2_inode.specs.Directory.{Entries};
ghost use Rattle.h2_dir.specs.Finding.{HoldsEntries};
ghost use Rattle.h2_dir.specs.Changing.{HasRoom, HasBlockIfLong, Adds, AddsWithin, TellsName, entry_ref, with_entries};
ghost use Rattle.h2_dir.specs.Others.{KeepsOtherTrees, KeepsOtherEntries};

use crate::entry::entry_ref;
use crate::resizing::resize;
use h2_inode::Nodes;
use h2_num::Block;
use h2_ref::{Check, Ref};
use h2_set::{NodeId, Sets};
use h2_tree::insert;
use std::alloc::Global;

// Puts a leaf into a tree in which the loaded path of its key leads to none.
fn put_in<N: Sets>(alloc: Global, n: &mut N, root: NodeId, leaf: Ref)
    requires sound { IsSound (N.forest n.old) }
    requires stands { let f = N.forest n.old in f.stands root.0 ≡ true }
    requires takes { Takes (N.forest n.old) root.0 leaf }
    requires free { Reaches (N.forest n.old) leaf.key root.0 None }
    requires space { let f = N.forest n.old in (1 ≤ f.spare) × (63 ≤ f.room) }
    ensures inserts { Inserts (N.forest n.old) (N.forest n.new) root.0 leaf None }
    ensures none_met { MeetsNone (N.forest n.old) (N.forest n.new) }
    ensures paths { KeepsPaths (N.forest n.old) (N.forest n.new) root.0 leaf }
    ensures path { Reaches (N.forest n.new) leaf.key root.0 (Some leaf) }
    ensures beside { KeepsBeside (N.forest n.old) (N.forest n.new) (N.beside n.old) (N.beside n.new) }
    ensures later { N.later n.old n.new }
{
    let Ok(_replaced) = insert(alloc, n, root, leaf) else {
        unreachable!();
    };
}

/// Adds an entry to a directory, with the epoch as its id, and raises the directory's size by one. Where no entry had
/// the name, the directory stands for its entries and this one.
///
/// No entry has the key, its path is loaded, and it has the upper bits of the name's keys (`spot` gives such a key).
/// The size is below 4096. The number is from 1 to 2^62 - 1, and the target 1 for a directory or 2 for a file. A name
/// of more than 64 bytes has a block of 1 KiB, and no other has: it is given with its check. At least one node is
/// spare, and the room is at least 63; they are lowered by at most this, and spare nodes only by the block that a split
/// makes. It can't be refused, and meets no bad block. No node is unloaded, and all loaded paths stay. Other directories
/// and files stay the same, and the trees of PFSs do, but for where the blocks of inodes and indirect blocks lie. No
/// root comes, and leaves that named one root each still do.
pub fn add_at<N: Nodes>(
    alloc: Global,
    n: &mut N,
    dir: NodeId,
    key: u64,
    name: &[u8],
    block: Option<(Block, Check)>,
    number: u64,
    target: u8,
)
    requires sound { IsSound (N.forest n.old) }
    requires directory { HasRoom (N.forest n.old) (held_by N.fields (N.beside n.old)) dir.0 }
    requires under { IsNameUnder key name.now }
    requires free { Reaches (N.forest n.old) key dir.0 None }
    requires block { HasBlockIfLong name.now block }
    requires valid { let f = N.forest n.old in IsValid (entry_ref f.epoch key name.now block number target) }
    requires space { let f = N.forest n.old in (1 ≤ f.spare) × (63 ≤ f.room) }
    ensures adds { let f = N.forest n.old in Adds f (N.forest n.new) dir.0 (entry_ref f.epoch key name.now block number target) }
    ensures inode { let g = N.forest n.new in (i : Inode) → HasInode (N.forest n.old) (held_by N.fields (N.beside n.old)) dir.0 i → HasInode g (held_by N.fields (N.beside n.new)) dir.0 (with_entries i (i.size + 1) (g.set dir.0)) }
    ensures leaves { let f = N.forest n.old in (l : List Ref) → LeavesOf f dir.0 l → LeavesOf (N.forest n.new) dir.0 (put (entry_ref f.epoch key name.now block number target) l) }
    ensures entries { let f = N.forest n.old in (may : ℕ → ℕ → Bool) (size : ℕ) (entries : Entries) → HoldsEntries f (held_by N.fields (N.beside n.old)) (N.told n.old) may dir.0 size entries → get entries name.now ≡ None → may target number ≡ true → TellsName f (entry_ref f.epoch key name.now block number target) name.now block
        → HoldsEntries (N.forest n.new) (held_by N.fields (N.beside n.new)) (N.told n.new) may dir.0 (size + 1) (insert entries name.now number) }
    ensures path { let f = N.forest n.old in Reaches (N.forest n.new) key dir.0 (Some (entry_ref f.epoch key name.now block number target)) }
    ensures paths { let f = N.forest n.old in KeepsPaths f (N.forest n.new) dir.0 (entry_ref f.epoch key name.now block number target) }
    ensures others { KeepsOtherTrees (view_of N.fields (N.forest n.old) (N.beside n.old) (N.told n.old)) (view_of N.fields (N.forest n.new) (N.beside n.new) (N.told n.new)) dir.0 }
    ensures above { RenewsOthers (view_of N.fields (N.forest n.old) (N.beside n.old) (N.told n.old)) (view_of N.fields (N.forest n.new) (N.beside n.new) (N.told n.new)) dir.0 }
    ensures other_entries { KeepsOtherEntries (N.forest n.old) (N.forest n.new) (held_by N.fields (N.beside n.old)) (held_by N.fields (N.beside n.new)) (N.told n.old) (N.told n.new) dir.0 }
    ensures one { NamesOne (N.forest n.old) → NamesOne (N.forest n.new) }
    ensures none_met { MeetsNone (N.forest n.old) (N.forest n.new) }
    ensures beside { KeepsOthersBeside (N.forest n.old) (N.forest n.new) dir.0 (N.beside n.old) (N.beside n.new) }
    ensures spends { let f = N.forest n.old in let g = N.forest n.new in (f.room ≤ g.room + 63) × (f.spare ≤ g.spare + 1) }
    ensures falls { let f = N.forest n.old in let g = N.forest n.new in (g.room ≤ f.room) × (g.spare ≤ f.spare) }
    ensures exact { let f = N.forest n.old in AddsWithin f (N.forest n.new) dir.0 (entry_ref f.epoch key name.now block number target) }
    ensures later { N.later n.old n.new }
{
    let size = n.inode(dir).size;
    let leaf = entry_ref(n.epoch(), key, name, block, number, target);
    put_in(alloc, n, dir, leaf);
    resize(n, dir, size + 1);
}
