ghost use Rattle.std.specs.Prelude.{◌≡◌, ℕ, Bool, true, List, ◌∷◌, IfOk, IfErr, OnOk, OnErr};
ghost use Rattle.h2_set.specs.Ranges.{find as leaf_with};
ghost use Rattle.h2_ref.specs.declared.reference.Ref.{Ref};
ghost use Rattle.h2_set.specs.Forest.{IsSound, LeavesOf, Reaches};
ghost use Rattle.h2_set.specs.Calls.{IsBad, Walks, HasCause, MeetsNone, MeetsOnly, KeepsBeside};
ghost use Rattle.h2_tree.specs.Changes.{LoadsIn, PathUnloaded};
ghost use Rattle.h2_inode.specs.Nodes.{held_by, Visits};
ghost use Rattle.h2_inode.specs.Loaded.{View, StandsAlike, view_of};
ghost use Rattle.h2_dir.specs.Finding.{IsBadBlock, FaultMeetsOnly};
ghost use Rattle.h2_dir.specs.Knowing.{KnowsWay, StepAgrees, WalkAgrees};
ghost use Rattle.h2_dir.specs.Walking.{IsPfsRoot, LoadsStep, LoadsWalk, WalkEnds, StepEnds};

use crate::fault::DirFault;
use crate::finding::find;
use h2_inode::Nodes;
use h2_num::Names;
use h2_ref::{Ref, Trouble};
use h2_set::NodeId;
use h2_tree::lookup;
use std::alloc::Global;

/// The number of the root directory of each PFS.
const ROOT_DIRECTORY: u64 = 1;

// The leaf of a PFS's tree that has the number. Only the path of the number is loaded.
fn leaf_of<N: Nodes>(
    alloc: Global,
    n: &mut N,
    pfs: NodeId,
    number: u64,
) -> Result<Option<Ref>, Trouble>
    requires sound { IsSound (N.forest n.old) }
    requires stands { let f = N.forest n.old in f.stands pfs.0 ≡ true }
    ensures walks { Walks (N.forest n.old) (N.forest n.new) }
    ensures path { IfOk result (Reaches (N.forest n.new) number pfs.0) }
    ensures found { let f = N.forest n.old in IfOk result (λ o. (l : List Ref) → LeavesOf f pfs.0 l → o ≡ leaf_with number l) }
    ensures tree { LoadsIn (N.forest n.old) (N.forest n.new) pfs.0 number number }
    ensures err { IfErr result (HasCause (N.forest n.old) (N.forest n.new)) }
    ensures none_met { OnOk result (MeetsNone (N.forest n.old) (N.forest n.new)) }
    ensures met_only { IfErr result (MeetsOnly (N.forest n.old) (N.forest n.new)) }
    ensures unloaded { OnErr result (PathUnloaded (N.forest n.old) pfs.0 number) }
    ensures good { let f = N.forest n.old in IfErr result (λ e. (l : List Ref) → LeavesOf f pfs.0 l → IsBad e → ⊥) }
    ensures beside { KeepsBeside (N.forest n.old) (N.forest n.new) (N.beside n.old) (N.beside n.new) }
    ensures later { N.later n.old n.new }
{
    lookup(alloc, n, pfs, number)
}

// The number of the inode that a name leads to in the inode with this number.
fn step<N: Nodes>(
    alloc: Global,
    n: &mut N,
    pfs: NodeId,
    number: u64,
    name: &[u8],
) -> Result<u64, DirFault>
    requires sound { IsSound (N.forest n.old) }
    requires pfs { IsPfsRoot (N.forest n.old) (held_by N.fields (N.beside n.old)) pfs.0 }
    ensures visits { Visits (N.forest n.old) (N.forest n.new) }
    ensures ends { StepEnds (N.forest n.old) (N.forest n.new) (held_by N.fields (N.beside n.new)) pfs.0 number name.now result }
    ensures loads { LoadsStep (N.forest n.old) (N.forest n.new) (held_by N.fields (N.beside n.new)) pfs.0 number name.now }
    ensures none_met { OnOk result (MeetsNone (N.forest n.old) (N.forest n.new)) }
    ensures met_only { IfErr result (FaultMeetsOnly (N.forest n.old) (N.forest n.new)) }
    ensures good { (may : ℕ → ℕ → Bool) (l : List Ref) (names : List (List ℕ)) → LeavesOf (N.forest n.old) pfs.0 l → KnowsWay (view_of N.fields (N.forest n.old) (N.beside n.old) (N.told n.old)) may pfs.0 l number (name.now ∷ names) → IfErr result (λ e. IsBadBlock e → ⊥) }
    ensures onward { (may : ℕ → ℕ → Bool) (l : List Ref) (names : List (List ℕ)) → LeavesOf (N.forest n.old) pfs.0 l → KnowsWay (view_of N.fields (N.forest n.old) (N.beside n.old) (N.told n.old)) may pfs.0 l number (name.now ∷ names) → IfOk result (λ next. KnowsWay (view_of N.fields (N.forest n.new) (N.beside n.new) (N.told n.new)) may pfs.0 l next names) }
    ensures agrees { (first : View) (may : ℕ → ℕ → Bool) (l : List Ref) (names : List (List ℕ)) → StandsAlike first (view_of N.fields (N.forest n.old) (N.beside n.old) (N.told n.old)) → first.forest.stands pfs.0 ≡ true → LeavesOf first.forest pfs.0 l → KnowsWay first may pfs.0 l number (name.now ∷ names) → StepAgrees first may pfs.0 l number name.now names result }
    ensures alike { StandsAlike (view_of N.fields (N.forest n.old) (N.beside n.old) (N.told n.old)) (view_of N.fields (N.forest n.new) (N.beside n.new) (N.told n.new)) }
    ensures beside { KeepsBeside (N.forest n.old) (N.forest n.new) (N.beside n.old) (N.beside n.new) }
    ensures later { N.later n.old n.new }
{
    let found = leaf_of(alloc, n, pfs, number)?;
    let Some(leaf) = found else {
        return Err(DirFault::NotDir);
    };
    let dir = n.seek(alloc, pfs, &leaf)?;
    match find(alloc, n, dir, name) {
        Ok((_key, entry)) => Ok(entry.number),
        Err(fault) => Err(fault),
    }
}

/// The number of the inode that the names of a path lead to from inode 1 of a PFS, whose inode's root is given.
///
/// Names are looked up from left to right: NoEntry exactly where one is missing in its directory, NotDir exactly where
/// one is looked up in what isn't a directory: in a file, or in a number that the PFS has no inode of, which no sound
/// volume has. Never Exists. Trouble only where a node on the path of a number, an inode on the way or a node that a
/// search for a name needs isn't loaded, or a name of more than 64 bytes was to be read, or for want of memory; never a
/// bad block where the leaves of the PFS are known, and all inodes and directories on the way. There the answer is what
/// the known entries say, one name after the other. Of the faults of the disk just the one is met that the answer
/// tells.
///
/// Nothing but loads takes place, whatever is answered, and all trees stand for what they stood for. No node is loaded
/// but those on the paths of the numbers on the way, the roots of the inodes with these numbers, and in a directory on
/// the way those whose ranges have a key of the next name.
pub fn walk<N: Nodes>(alloc: Global, n: &mut N, pfs: NodeId, names: &Names) -> Result<u64, DirFault>
    requires sound { IsSound (N.forest n.old) }
    requires pfs { IsPfsRoot (N.forest n.old) (held_by N.fields (N.beside n.old)) pfs.0 }
    ensures visits { Visits (N.forest n.old) (N.forest n.new) }
    ensures ends { WalkEnds (N.forest n.old) (N.forest n.new) (held_by N.fields (N.beside n.new)) pfs.0 1 names.now result }
    ensures loads { LoadsWalk (N.forest n.old) (N.forest n.new) (held_by N.fields (N.beside n.new)) pfs.0 1 names.now }
    ensures none_met { OnOk result (MeetsNone (N.forest n.old) (N.forest n.new)) }
    ensures met_only { IfErr result (FaultMeetsOnly (N.forest n.old) (N.forest n.new)) }
    ensures good { (may : ℕ → ℕ → Bool) (l : List Ref) → LeavesOf (N.forest n.old) pfs.0 l → KnowsWay (view_of N.fields (N.forest n.old) (N.beside n.old) (N.told n.old)) may pfs.0 l 1 names.now → IfErr result (λ e. IsBadBlock e → ⊥) }
    ensures agrees { (may : ℕ → ℕ → Bool) (l : List Ref) → LeavesOf (N.forest n.old) pfs.0 l → KnowsWay (view_of N.fields (N.forest n.old) (N.beside n.old) (N.told n.old)) may pfs.0 l 1 names.now → WalkAgrees (view_of N.fields (N.forest n.old) (N.beside n.old) (N.told n.old)) may pfs.0 l 1 names.now result }
    ensures alike { StandsAlike (view_of N.fields (N.forest n.old) (N.beside n.old) (N.told n.old)) (view_of N.fields (N.forest n.new) (N.beside n.new) (N.told n.new)) }
    ensures beside { KeepsBeside (N.forest n.old) (N.forest n.new) (N.beside n.old) (N.beside n.new) }
    ensures later { N.later n.old n.new }
{
    let items = names.items();
    let mut number = ROOT_DIRECTORY;
    for i in 0..items.len() {
        match step(alloc, n, pfs, number, items[i].as_slice()) {
            Ok(next) => number = next,
            Err(fault) => return Err(fault),
        }
    }
    Ok(number)
}
