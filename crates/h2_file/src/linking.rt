ghost use Rattle.std.specs.Prelude.{◌≡◌, ◌<◌, ◌≤◌, ◌⊎◌, ◌+◌, ◌*◌, true, false, ℕ, List, Option, length, IfErr, OnOk, OnErr};
ghost use Rattle.h2_num.specs.Places.{Places};
ghost use Rattle.h2_ref.specs.declared.reference.Ref.{Ref};
ghost use Rattle.h2_set.specs.RefSet.{RefSet};
ghost use Rattle.h2_set.specs.Forest.{Forest, IsSound, Reaches, LeavesOf};
ghost use Rattle.h2_set.specs.Calls.{Walks, HasCause, IsBad, MeetsNone, MeetsOnly, KeepsBeside};
ghost use Rattle.h2_tree.specs.Changes.{Prepares};
ghost use Rattle.h2_inode.specs.declared.inode.Body.{Body};
ghost use Rattle.h2_inode.specs.declared.inode.Body.TheVariants.{Refs, Bytes};
ghost use Rattle.h2_inode.specs.declared.inode.Inode.{Inode};
ghost use Rattle.h2_inode.specs.Embedded.{EmbedsBytes};
ghost use Rattle.h2_inode.specs.Nodes.{held_by, HasInode, Replaces, KeepsOthersBeside, NamesOne};
ghost use Rattle.h2_file.specs.Blocks.{IsFile, IsFileOfRefs, HasContents};
ghost use Rattle.h2_file.specs.FileContents.{FileHas, LinksBytes, CoversBytes};
ghost use Rattle.h2_file.specs.Sizing.{HasResized};
ghost use Rattle.h2_inode.specs.Loaded.{view_of};
ghost use Rattle.h2_inode.specs.Others.{RenewsOthers};
ghost use Rattle.h2_file.specs.Linking.{empty_set, IsBlock, AreBlocks, PathsLoaded, LoadsEach, KeepsOthers, PathMissing, Opens, Puts, PutsEach, LinksFile};

use crate::sizing::{resized, set_size};
use h2_inode::{Body, Inode, Nodes};
use h2_num::NoMemory;
use h2_ref::{Ref, Trouble};
use h2_set::{NodeId, Set, Sets};
use h2_tree::{insert, lookup};
use std::alloc::Global;

// Loads the paths of the keys of all references.
fn load_paths<N: Sets>(alloc: Global, n: &mut N, root: NodeId, refs: &[Ref]) -> Result<(), Trouble>
    requires sound { IsSound (N.forest n.old) }
    requires stands { let f = N.forest n.old in f.stands root.0 ≡ true }
    ensures loaded { OnOk result (PathsLoaded (N.forest n.new) root.0 refs.now) }
    ensures walks { Walks (N.forest n.old) (N.forest n.new) }
    ensures touched { LoadsEach (N.forest n.old) (N.forest n.new) root.0 refs.now }
    ensures apart { KeepsOthers (N.forest n.old) (N.forest n.new) root.0 }
    ensures err { IfErr result (HasCause (N.forest n.old) (N.forest n.new)) }
    ensures none_met { OnOk result (MeetsNone (N.forest n.old) (N.forest n.new)) }
    ensures met_only { IfErr result (MeetsOnly (N.forest n.old) (N.forest n.new)) }
    ensures unloaded { OnErr result (PathMissing (N.forest n.old) root.0 refs.now) }
    ensures good { IfErr result (λ e. (l : List Ref) → LeavesOf (N.forest n.old) root.0 l → IsBad e → ⊥) }
    ensures beside { KeepsBeside (N.forest n.old) (N.forest n.new) (N.beside n.old) (N.beside n.new) }
    ensures later { N.later n.old n.new }
{
    for at in 0..refs.len() {
        lookup(alloc, n, root, refs[at].key)?;
    }
    Ok(())
}

// Loads the paths of the keys of all references, and has a spare node for each.
fn prepare<N: Sets>(alloc: Global, n: &mut N, root: NodeId, refs: &[Ref]) -> Result<(), Trouble>
    requires sound { IsSound (N.forest n.old) }
    requires stands { let f = N.forest n.old in f.stands root.0 ≡ true }
    requires few { length refs.now ≤ 66 }
    ensures prepares { OnOk result (Prepares (N.forest n.old) (N.forest n.new)) }
    ensures loaded { OnOk result (PathsLoaded (N.forest n.new) root.0 refs.now) }
    ensures spare { OnOk result (let g = N.forest n.new in length refs.now ≤ g.spare) }
    ensures made { let f = N.forest n.old in let g = N.forest n.new in length refs.now ≤ f.spare → g.spare ≡ f.spare }
    ensures walks { OnErr result (Walks (N.forest n.old) (N.forest n.new)) }
    ensures touched { LoadsEach (N.forest n.old) (N.forest n.new) root.0 refs.now }
    ensures apart { KeepsOthers (N.forest n.old) (N.forest n.new) root.0 }
    ensures err { IfErr result (HasCause (N.forest n.old) (N.forest n.new)) }
    ensures none_met { OnOk result (MeetsNone (N.forest n.old) (N.forest n.new)) }
    ensures met_only { IfErr result (MeetsOnly (N.forest n.old) (N.forest n.new)) }
    ensures unloaded { OnErr result (let f = N.forest n.old in PathMissing f root.0 refs.now ⊎ (f.spare < length refs.now)) }
    ensures good { IfErr result (λ e. (l : List Ref) → LeavesOf (N.forest n.old) root.0 l → IsBad e → ⊥) }
    ensures beside { KeepsBeside (N.forest n.old) (N.forest n.new) (N.beside n.old) (N.beside n.new) }
    ensures later { N.later n.old n.new }
{
    load_paths(alloc, n, root, refs)?;
    match n.ready(alloc, refs.len() as u32) {
        Ok(()) => Ok(()),
        Err(NoMemory) => Err(Trouble::NoMemory),
    }
}

// Whether the body of an inode is references.
fn has_refs(inode: &Inode) -> bool
    ensures yes { result ≡ true → (s : RefSet) × (inode.now.body ≡ Refs s) }
    ensures no { result ≡ false → (bytes : List ℕ) × (inode.now.body ≡ Bytes bytes) }
{
    match &inode.body {
        Body::Refs(_) => true,
        Body::Bytes(_) => false,
    }
}

// Makes the root of a file writable, and a body of bytes an empty set of references.
fn open_body<N: Nodes>(n: &mut N, at: NodeId)
    requires sound { IsSound (N.forest n.old) }
    requires file { IsFile (N.forest n.old) (held_by N.fields (N.beside n.old)) at.0 }
    ensures opens { Opens (N.forest n.old) at.0 (N.forest n.new) }
    ensures none_met { MeetsNone (N.forest n.old) (N.forest n.new) }
    ensures file { IsFileOfRefs (N.forest n.new) (held_by N.fields (N.beside n.new)) at.0 }
    ensures inode { (i : Inode) → HasInode (N.forest n.old) (held_by N.fields (N.beside n.old)) at.0 i → HasResized (N.forest n.new) (held_by N.fields (N.beside n.new)) at.0 i i.size }
    ensures beside { KeepsOthersBeside (N.forest n.old) (N.forest n.new) at.0 (N.beside n.old) (N.beside n.new) }
    ensures later { N.later n.old n.new }
{
    n.alter(at);
    if has_refs(n.inode(at)) {
        return;
    }
    let inode = n.inode(at);
    let emptied = resized(inode, Set::new(4), inode.size);
    n.set_inode(at, emptied);
}

// Puts the reference of a block into the tree of a file's root, in which the path of its key is loaded.
fn put_block<N: Sets>(alloc: Global, n: &mut N, at: NodeId, r: Ref)
    requires sound { IsSound (N.forest n.old) }
    requires root { let f = N.forest n.old in (f.stands at.0 ≡ true) × (f.root at.0 ≡ at.0) × (f.low at.0 ≡ 0) }
    requires contents { HasContents (N.forest n.old) at.0 }
    requires room { let f = N.forest n.old in 63 ≤ f.room }
    requires spare { let f = N.forest n.old in 1 ≤ f.spare }
    requires block { IsBlock r }
    requires loaded { (o : Option Ref) × Reaches (N.forest n.old) r.key at.0 o }
    ensures puts { Puts (N.forest n.old) (N.forest n.new) at.0 r }
    ensures none_met { MeetsNone (N.forest n.old) (N.forest n.new) }
    ensures beside { KeepsBeside (N.forest n.old) (N.forest n.new) (N.beside n.old) (N.beside n.new) }
    ensures later { N.later n.old n.new }
{
    match insert(alloc, n, at, r) {
        Ok(_) => {}
        Err(_) => unreachable!(),
    }
}

// Puts the references of blocks into the tree of a file's root, one after the other.
fn put_blocks<N: Sets>(alloc: Global, n: &mut N, at: NodeId, refs: &[Ref])
    requires sound { IsSound (N.forest n.old) }
    requires root { let f = N.forest n.old in (f.stands at.0 ≡ true) × (f.root at.0 ≡ at.0) × (f.low at.0 ≡ 0) }
    requires contents { HasContents (N.forest n.old) at.0 }
    requires room { let f = N.forest n.old in 7 * length refs.now + 186 ≤ f.room }
    requires spare { let f = N.forest n.old in length refs.now ≤ f.spare }
    requires blocks { AreBlocks refs.now }
    requires loaded { PathsLoaded (N.forest n.old) at.0 refs.now }
    ensures puts { PutsEach at.0 (N.forest n.old) refs.now (N.forest n.new) }
    ensures none_met { MeetsNone (N.forest n.old) (N.forest n.new) }
    ensures beside { KeepsBeside (N.forest n.old) (N.forest n.new) (N.beside n.old) (N.beside n.new) }
    ensures later { N.later n.old n.new }
{
    for i in 0..refs.len() {
        put_block(alloc, n, at, refs[i]);
    }
}

/// Makes these references the file's, and sets its size. They are those of at most 65 consecutive blocks, in order, and
/// block 0 may stand before them. A body of bytes becomes an empty set of references first, so the blocks have to have
/// those of its bytes that are to stay. Each reference is inserted by itself, in their order, in place of the one with
/// its key. With `k` references the room is at least 7k + 186, and is lowered by at most 7k + 129. For what is copied
/// is a node of 64 blocks or more on the path of block 0, the first block or the last one, of which each path has at
/// most 43, or one of at most 6 smaller nodes on the path of the block itself; and a split takes one new block. Spare
/// nodes are lowered by the new blocks alone; none is made where there is one for each reference before. Trouble only
/// where a node on the path of one of the keys isn't loaded, or fewer nodes are spare than there are references, and
/// never a bad block where the file's references are known; nothing but loads took place then. Of the faults of the
/// disk just the one is met that the answer tells.
pub fn link_blocks<N: Nodes>(
    alloc: Global,
    n: &mut N,
    inode: NodeId,
    refs: &[Ref],
    size: u64,
) -> Result<(), Trouble>
    requires sound { IsSound (N.forest n.old) }
    requires file { IsFile (N.forest n.old) (held_by N.fields (N.beside n.old)) inode.0 }
    requires blocks { AreBlocks refs.now }
    requires room { let f = N.forest n.old in 7 * length refs.now + 186 ≤ f.room }
    ensures links { OnOk result (LinksFile (N.forest n.old) (N.forest n.new) inode.0 refs.now) }
    ensures contents { (blocks : Ref → Option Places) (old : ℕ) (bytes new : List ℕ) → FileHas (N.forest n.old) (held_by N.fields (N.beside n.old)) (N.told n.old) blocks inode.0 old bytes → LinksBytes blocks refs.now size bytes new → OnOk result (FileHas (N.forest n.new) (held_by N.fields (N.beside n.new)) (N.told n.new) blocks inode.0 size new) }
    ensures lifted { (blocks : Ref → Option Places) (i : Inode) (body bytes new : List ℕ) → HasInode (N.forest n.old) (held_by N.fields (N.beside n.old)) inode.0 i → i.body ≡ Bytes body → EmbedsBytes i.size body bytes → CoversBytes refs.now bytes → LinksBytes blocks refs.now size bytes new → OnOk result (FileHas (N.forest n.new) (held_by N.fields (N.beside n.new)) (N.told n.new) blocks inode.0 size new) }
    ensures others { OnOk result (RenewsOthers (view_of N.fields (N.forest n.old) (N.beside n.old) (N.told n.old)) (view_of N.fields (N.forest n.new) (N.beside n.new) (N.told n.new)) inode.0) }
    ensures one { NamesOne (N.forest n.old) → NamesOne (N.forest n.new) }
    ensures inode { OnOk result ((i : Inode) → HasInode (N.forest n.old) (held_by N.fields (N.beside n.old)) inode.0 i → HasResized (N.forest n.new) (held_by N.fields (N.beside n.new)) inode.0 i size) }
    ensures walks { OnErr result (Walks (N.forest n.old) (N.forest n.new)) }
    ensures err { IfErr result (HasCause (N.forest n.old) (N.forest n.new)) }
    ensures none_met { OnOk result (MeetsNone (N.forest n.old) (N.forest n.new)) }
    ensures met_only { IfErr result (MeetsOnly (N.forest n.old) (N.forest n.new)) }
    ensures touched { OnErr result (LoadsEach (N.forest n.old) (N.forest n.new) inode.0 refs.now) }
    ensures unloaded { OnErr result (let f = N.forest n.old in PathMissing f inode.0 refs.now ⊎ (f.spare < length refs.now)) }
    ensures good { IfErr result (λ e. (l : List Ref) → LeavesOf (N.forest n.old) inode.0 l → IsBad e → ⊥) }
    ensures beside { KeepsOthersBeside (N.forest n.old) (N.forest n.new) inode.0 (N.beside n.old) (N.beside n.new) }
    ensures same { OnErr result (KeepsBeside (N.forest n.old) (N.forest n.new) (N.beside n.old) (N.beside n.new)) }
    ensures later { N.later n.old n.new }
{
    prepare(alloc, n, inode, refs)?;
    open_body(n, inode);
    put_blocks(alloc, n, inode, refs);
    set_size(n, inode, size);
    Ok(())
}
