ghost use Rattle.std.specs.Prelude.{◌≡◌, ◌<◌, ◌≤◌, ◌⊎◌, ◌-◌, ◌↔◌, true, false, ℕ, List, [], Option, Some, slice_get, length, take, IfOk, IfErr, IfSome, OnOk, OnErr};
ghost use Rattle.h2_ref.specs.declared.reference.Ref.{Ref};
ghost use Rattle.h2_ref.specs.declared.reference.Kind.{Kind};
ghost use Rattle.h2_set.specs.Ranges.{is_indirect, limit};
ghost use Rattle.h2_set.specs.RefSet.{RefSet};
ghost use Rattle.h2_set.specs.Forest.{Forest, refs, IsSound, LeavesOf, HasLeaves};
ghost use Rattle.h2_set.specs.Calls.{Walks, HasCause, IsBad, MeetsNone, MeetsOnly, KeepsBeside};
ghost use Rattle.h2_tree.specs.Changes.{LoadsIn, PathUnloaded, WalksUnder};
ghost use Rattle.h2_inode.specs.Nodes.{held_by, KeepsOthersBeside, NamesOne};
ghost use Rattle.h2_num.specs.Places.{Places};
ghost use Rattle.h2_contents.specs.Bytes.{cut_to as bytes_to};
ghost use Rattle.h2_file.specs.Blocks.{IsFileOfRefs, HasContents};
ghost use Rattle.h2_file.specs.FileContents.{FileHas, EndsIn};
ghost use Rattle.h2_file.specs.Sizing.{HasResized};
ghost use Rattle.h2_file.specs.Cutting.{IsCutBlock, cut_to, front, FitsLast, IsChanged, KeepsFront, Shortens, Cuts, CutsNodes, CutsFile, Remains};
ghost use Rattle.h2_inode.specs.Loaded.{view_of};
ghost use Rattle.h2_inode.specs.Others.{RenewsOthers};
ghost use Rattle.h2_file.specs.declared.cutting.Left.{Left};

use crate::sizing::set_size;
use h2_inode::Nodes;
use h2_ref::{Ref, Trouble};
use h2_set::{NodeId, Set, Sets, holds, is_indirect};
use std::alloc::Global;

/// What a cut leaves of the references below a node.
#[derive(Clone, Copy, PartialEq, Eq)]
pub(crate) enum Left {
    /// Nothing would be left, and nothing has changed: the reference to the node has to go.
    Nothing,
    /// All of them, and nothing has changed: the node stays as it is, and isn't copied.
    All,
    /// The references below the size, which are fewer, or of which one was replaced.
    Something,
}

// How many references of a set are below the size.
fn count_below(set: &Set, size: u64) -> usize
    ensures within { result ≤ length set.now.refs }
    ensures below { (i : ℕ) (r : Ref) → slice_get set.now.refs i ≡ Some r → i < result → r.key < size }
    ensures past { (i : ℕ) (r : Ref) → slice_get set.now.refs i ≡ Some r → result ≤ i → size ≤ r.key }
{
    for i in 0..set.len() {
        if set.at(i).key >= size {
            return i;
        }
    }
    set.len()
}

// Takes all but the first references out of a set.
fn truncate(set: &mut Set, count: usize)
    ensures { set.new ≡ record set.old { refs = take count set.old.refs } }
{
    while set.len() > count {
        let end = set.len() - 1;
        set.cut(end);
    }
}

// The first references of a set, with `last` in place of the last of them where it is given.
fn front(set: &Set, count: usize, last: Option<Ref>) -> Set
    requires { IfSome last (FitsLast set.now.refs count) }
    ensures { result ≡ record set.now { refs = front count last set.now.refs } }
{
    let mut kept = set.copy();
    truncate(&mut kept, count);
    if let Some(r) = last {
        kept.swap(count - 1, r);
    }
    kept
}

// Leaves a node its first references, with `last` in place of the last of them where it is given.
fn keep_front<N: Sets>(n: &mut N, at: NodeId, count: usize, last: Option<Ref>)
    requires sound { IsSound (N.forest n.old) }
    requires stands { let f = N.forest n.old in f.stands at.0 ≡ true }
    requires room { let f = N.forest n.old in f.copies at.0 ≤ f.room }
    requires contents { HasContents (N.forest n.old) at.0 }
    requires some { let f = N.forest n.old in (f.root at.0 ≡ at.0) ⊎ ((0 < count) × (0 < length (refs f at.0))) }
    requires last { IfSome last (FitsLast (refs (N.forest n.old) at.0) count) }
    ensures kept { KeepsFront (N.forest n.old) (N.forest n.new) at.0 count last }
    ensures none_met { MeetsNone (N.forest n.old) (N.forest n.new) }
    ensures beside { KeepsBeside (N.forest n.old) (N.forest n.new) (N.beside n.old) (N.beside n.new) }
    ensures later { N.later n.old n.new }
{
    n.alter(at);
    let set = front(n.get(at), count, last);
    n.store(at, set);
}

// Whether the first references are all of a set, and none is put in place of the last of them.
fn is_whole(set: &Set, count: usize, last: Option<Ref>) -> bool
    requires { count ≤ length set.now.refs }
    ensures yes { result ≡ true → (count ≡ length set.now.refs) × (last ≡ None) }
    ensures no { result ≡ false → IsChanged set.now.refs count last }
{
    match last {
        None => count == set.len(),
        Some(_) => false,
    }
}

// Leaves a node its first references, as `keep_front`. Where these are all and none is replaced, nothing changes: a node
// is copied only when it is changed.
fn shorten<N: Sets>(n: &mut N, at: NodeId, count: usize, last: Option<Ref>) -> Left
    requires sound { IsSound (N.forest n.old) }
    requires stands { let f = N.forest n.old in f.stands at.0 ≡ true }
    requires room { let f = N.forest n.old in f.copies at.0 ≤ f.room }
    requires contents { HasContents (N.forest n.old) at.0 }
    requires within { (0 < count) × (count ≤ length (refs (N.forest n.old) at.0)) }
    requires last { IfSome last (FitsLast (refs (N.forest n.old) at.0) count) }
    ensures shortens { Shortens (N.forest n.old) (N.forest n.new) at.0 count last result }
    ensures none_met { MeetsNone (N.forest n.old) (N.forest n.new) }
    ensures beside { KeepsBeside (N.forest n.old) (N.forest n.new) (N.beside n.old) (N.beside n.new) }
    ensures later { N.later n.old n.new }
{
    if is_whole(n.get(at), count, last) {
        return Left::All;
    }
    keep_front(n, at, count, last);
    Left::Something
}

// Takes the references at or past the size out of the tree below a node, unless none would be left. Nothing but loads
// takes place where all are left.
fn cut_below<N: Sets>(
    alloc: Global,
    n: &mut N,
    at: NodeId,
    size: u64,
    last: Option<Ref>,
) -> Result<Left, Trouble>
    requires sound { IsSound (N.forest n.old) }
    requires stands { let f = N.forest n.old in f.stands at.0 ≡ true }
    requires room { let f = N.forest n.old in (f.copies at.0 ≤ 62) × (62 ≤ f.room) }
    requires contents { HasContents (N.forest n.old) at.0 }
    requires last { IfSome last (IsCutBlock size) }
    ensures left { IfOk result (Remains (N.forest n.old) (N.forest n.new) at.0 size last) }
    ensures walks { OnErr result (Walks (N.forest n.old) (N.forest n.new)) }
    ensures err { IfErr result (HasCause (N.forest n.old) (N.forest n.new)) }
    ensures none_met { OnOk result (MeetsNone (N.forest n.old) (N.forest n.new)) }
    ensures met_only { IfErr result (MeetsOnly (N.forest n.old) (N.forest n.new)) }
    ensures touched { OnErr result (LoadsIn (N.forest n.old) (N.forest n.new) at.0 size size) }
    ensures unloaded { OnErr result (PathUnloaded (N.forest n.old) at.0 size) }
    ensures good { IfErr result (λ e. (l : List Ref) → LeavesOf (N.forest n.old) at.0 l → IsBad e → ⊥) }
    ensures beside { KeepsBeside (N.forest n.old) (N.forest n.new) (N.beside n.old) (N.beside n.new) }
    ensures later { N.later n.old n.new }
{
    let set = n.get(at);
    let count = count_below(set, size);
    if count == 0 {
        return Ok(Left::Nothing);
    }
    let r = *set.at(count - 1);
    if !holds(&r, size) {
        return Ok(shorten(n, at, count, None));
    }
    if !is_indirect(&r) {
        return Ok(shorten(n, at, count, last));
    }
    let child = n.child(alloc, at, count - 1)?;
    match cut_below(alloc, n, child, size, last)? {
        Left::Something => keep_front(n, at, count, None),
        Left::All => return Ok(shorten(n, at, count, None)),
        Left::Nothing => {
            if count == 1 {
                return Ok(Left::Nothing);
            }
            keep_front(n, at, count - 1, None);
        }
    }
    Ok(Left::Something)
}

// Takes the references at or past the size out of the tree of a root, which is made writable in any case.
fn cut_tree<N: Sets>(
    alloc: Global,
    n: &mut N,
    root: NodeId,
    size: u64,
    last: Option<Ref>,
) -> Result<(), Trouble>
    requires sound { IsSound (N.forest n.old) }
    requires stands { let f = N.forest n.old in f.stands root.0 ≡ true }
    requires top { let f = N.forest n.old in f.root root.0 ≡ root.0 }
    requires room { let f = N.forest n.old in 62 ≤ f.room }
    requires contents { HasContents (N.forest n.old) root.0 }
    requires last { IfSome last (IsCutBlock size) }
    ensures cuts { OnOk result (Cuts (N.forest n.old) (N.forest n.new) root.0 size last) }
    ensures nodes { OnOk result (CutsNodes (N.forest n.old) (N.forest n.new) root.0 size last) }
    ensures walks { OnErr result (Walks (N.forest n.old) (N.forest n.new)) }
    ensures err { IfErr result (HasCause (N.forest n.old) (N.forest n.new)) }
    ensures none_met { OnOk result (MeetsNone (N.forest n.old) (N.forest n.new)) }
    ensures met_only { IfErr result (MeetsOnly (N.forest n.old) (N.forest n.new)) }
    ensures touched { OnErr result (LoadsIn (N.forest n.old) (N.forest n.new) root.0 size size) }
    ensures unloaded { OnErr result (PathUnloaded (N.forest n.old) root.0 size) }
    ensures good { IfErr result (λ e. (l : List Ref) → LeavesOf (N.forest n.old) root.0 l → IsBad e → ⊥) }
    ensures beside { KeepsBeside (N.forest n.old) (N.forest n.new) (N.beside n.old) (N.beside n.new) }
    ensures later { N.later n.old n.new }
{
    match cut_below(alloc, n, root, size, last)? {
        Left::Something => Ok(()),
        Left::All => {
            let count = n.get(root).len();
            keep_front(n, root, count, None);
            Ok(())
        }
        Left::Nothing => {
            keep_front(n, root, 0, None);
            Ok(())
        }
    }
}

/// Cuts a file to a size: takes out every content reference at or past it, puts `last`, where it is given, in place of
/// the reference of the block that the cut ends in, where there is one, and sets the size. The file's body is
/// references. A node that lies wholly past the size goes without being made writable, and one of which nothing goes,
/// nor below it, stays as it is: only the root, which has the size, is written in any case. The room is at least 62,
/// and is lowered by the number of nodes that are copied. Trouble only where a node on the path of the size isn't
/// loaded, and never a bad block where the file's references are known; nothing but loads took place then. Of the
/// faults of the disk just the one is met that the answer tells.
pub fn cut_blocks<N: Nodes>(
    alloc: Global,
    n: &mut N,
    inode: NodeId,
    size: u64,
    last: Option<Ref>,
) -> Result<(), Trouble>
    requires sound { IsSound (N.forest n.old) }
    requires file { IsFileOfRefs (N.forest n.old) (held_by N.fields (N.beside n.old)) inode.0 }
    requires room { let f = N.forest n.old in 62 ≤ f.room }
    requires last { IfSome last (IsCutBlock size) }
    ensures cuts { OnOk result (CutsFile (N.forest n.old) (N.forest n.new) inode.0 size last) }
    ensures contents { (blocks : Ref → Option Places) (old : ℕ) (bytes : List ℕ) → FileHas (N.forest n.old) (held_by N.fields (N.beside n.old)) (N.told n.old) blocks inode.0 old bytes → EndsIn blocks size bytes last → OnOk result (FileHas (N.forest n.new) (held_by N.fields (N.beside n.new)) (N.told n.new) blocks inode.0 size (bytes_to bytes size)) }
    ensures others { OnOk result (RenewsOthers (view_of N.fields (N.forest n.old) (N.beside n.old) (N.told n.old)) (view_of N.fields (N.forest n.new) (N.beside n.new) (N.told n.new)) inode.0) }
    ensures one { NamesOne (N.forest n.old) → NamesOne (N.forest n.new) }
    ensures inode { OnOk result ((file : IsFileOfRefs (N.forest n.old) (held_by N.fields (N.beside n.old)) inode.0) → HasResized (N.forest n.new) (held_by N.fields (N.beside n.new)) inode.0 file.inode size) }
    ensures walks { OnErr result (Walks (N.forest n.old) (N.forest n.new)) }
    ensures err { IfErr result (HasCause (N.forest n.old) (N.forest n.new)) }
    ensures none_met { OnOk result (MeetsNone (N.forest n.old) (N.forest n.new)) }
    ensures met_only { IfErr result (MeetsOnly (N.forest n.old) (N.forest n.new)) }
    ensures touched { OnErr result (LoadsIn (N.forest n.old) (N.forest n.new) inode.0 size size) }
    ensures unloaded { OnErr result (PathUnloaded (N.forest n.old) inode.0 size) }
    ensures good { IfErr result (λ e. (l : List Ref) → LeavesOf (N.forest n.old) inode.0 l → IsBad e → ⊥) }
    ensures beside { KeepsOthersBeside (N.forest n.old) (N.forest n.new) inode.0 (N.beside n.old) (N.beside n.new) }
    ensures same { OnErr result (KeepsBeside (N.forest n.old) (N.forest n.new) (N.beside n.old) (N.beside n.new)) }
    ensures later { N.later n.old n.new }
{
    cut_tree(alloc, n, inode, size, last)?;
    set_size(n, inode, size);
    Ok(())
}
