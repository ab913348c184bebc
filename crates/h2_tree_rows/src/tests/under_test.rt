ghost use Rattle.std.specs.Prelude.{◌≡◌, ◌<◌, ◌≤◌, ◌+◌, ◌^◌, false, IfOk, IfSome, IsTrue};
ghost use Rattle.h2_ref.specs.declared.reference.Kind.TheVariants.{Empty, Inode};
ghost use Rattle.h2_set.specs.Ranges.{is_indirect};
ghost use Rattle.h2_memory_sets.specs.Seen.{forest_of};
ghost use Rattle.h2_tree.specs.Changes.{Takes};
ghost use Rattle.h2_tree_rows.specs.TreeUnderTest.{IsLeafKey, IsTree};

use h2_memory_sets::{KeyClass, MemorySets};
use h2_num::NoMemory;
use h2_ref::{Check, Dirent, Kind, Ref, Trouble};
use h2_set::NodeId;
use h2_tree::{insert, lookup, range, remove};
use std::alloc::Global;

/// The epoch of what is made.
const EPOCH: u64 = 5;

/// How many blocks can be taken: more than all tests take.
const ROOM: u64 = 1_000_000_000;

/// Where the blocks of all leaves lie: a place of a block of 1 or 16 KiB.
const PLACE: u64 = 1 << 20;

/// The longest range of a leaf that is tried: that of a block of contents.
const LONGEST: u64 = 16384;

/// A tree over sets in memory.
#[derive(Drop)]
pub(super) struct Tree {
    pub sets: MemorySets,
    pub root: NodeId,
    pub keys: KeyClass,
    pub leaf_bits: u8,
}

impl Tree {
    /// An empty tree.
    #[tactic(auto, using(crate::proofs::Rooted::fresh))]
    pub fn new(alloc: Global, keys: KeyClass, leaf_bits: u8) -> Result<Tree, NoMemory>
        ensures { IfOk result (λ t. IsTree t.sets t.root.0 t.keys t.leaf_bits) }
    {
        let mut sets = MemorySets::new(alloc, EPOCH, ROOM);
        let root = sets.add_root(keys, leaf_bits)?;
        Ok(Tree {
            sets,
            root,
            keys,
            leaf_bits,
        })
    }

    /// The leaf with a key, in one of its versions. None where it can't be one of the tree. It need not be valid.
    pub fn leaf(&self, key: u64, version: u64) -> Option<Ref>
        requires { IsTree self.now.sets self.now.root.0 self.now.keys self.now.leaf_bits }
        ensures { IfSome result (Takes (forest_of self.now.sets) self.now.root.0) }
    {
        if !is_leaf_key(self.keys, key, self.leaf_bits) {
            return None;
        }
        Some(match self.keys {
            KeyClass::High => entry_leaf(key, self.leaf_bits, version),
            KeyClass::Low => block_leaf(key, self.leaf_bits, version),
        })
    }

    pub fn insert(&mut self, alloc: Global, leaf: Ref) -> Result<Option<Ref>, Trouble>
        requires tree { IsTree self.old.sets self.old.root.0 self.old.keys self.old.leaf_bits }
        requires takes { Takes (forest_of self.old.sets) self.old.root.0 leaf }
        ensures { IsTree self.new.sets self.new.root.0 self.new.keys self.new.leaf_bits }
    {
        if self.sets.room() < 63 {
            return Err(Trouble::NoMemory);
        }
        insert(alloc, &mut self.sets, self.root, leaf)
    }

    pub fn remove(&mut self, alloc: Global, key: u64) -> Result<Option<Ref>, Trouble>
        requires { IsTree self.old.sets self.old.root.0 self.old.keys self.old.leaf_bits }
        ensures { IsTree self.new.sets self.new.root.0 self.new.keys self.new.leaf_bits }
    {
        if self.sets.room() < 62 {
            return Err(Trouble::NoMemory);
        }
        remove(alloc, &mut self.sets, self.root, key)
    }

    pub fn lookup(&mut self, alloc: Global, key: u64) -> Result<Option<Ref>, Trouble>
        requires { IsTree self.old.sets self.old.root.0 self.old.keys self.old.leaf_bits }
        ensures { IsTree self.new.sets self.new.root.0 self.new.keys self.new.leaf_bits }
    {
        lookup(alloc, &mut self.sets, self.root, key)
    }

    pub fn range(&mut self, alloc: Global, from: u64, to: u64) -> Result<Vec<Ref>, Trouble>
        requires { IsTree self.old.sets self.old.root.0 self.old.keys self.old.leaf_bits }
        ensures { IsTree self.new.sets self.new.root.0 self.new.keys self.new.leaf_bits }
    {
        range(alloc, &mut self.sets, self.root, from, to)
    }

    /// Unloads the blocks whose range starts at this key or after.
    pub fn unload(&mut self, from: u64)
        requires { IsTree self.old.sets self.old.root.0 self.old.keys self.old.leaf_bits }
        ensures { IsTree self.new.sets self.new.root.0 self.new.keys self.new.leaf_bits }
    {
        self.sets.unload(from);
    }

    pub fn fail_load(&mut self, which: u64)
        requires { IsTree self.old.sets self.old.root.0 self.old.keys self.old.leaf_bits }
        ensures { IsTree self.new.sets self.new.root.0 self.new.keys self.new.leaf_bits }
    {
        self.sets.fail_load(which);
    }

    pub fn spoil_load(&mut self, which: u64)
        requires { IsTree self.old.sets self.old.root.0 self.old.keys self.old.leaf_bits }
        ensures { IsTree self.new.sets self.new.root.0 self.new.keys self.new.leaf_bits }
    {
        self.sets.spoil_load(which);
    }

    pub fn refuse_spare(&mut self, which: u64)
        requires { IsTree self.old.sets self.old.root.0 self.old.keys self.old.leaf_bits }
        ensures { IsTree self.new.sets self.new.root.0 self.new.keys self.new.leaf_bits }
    {
        self.sets.refuse_spare(which);
    }
}

// A leaf that names a block of contents.
fn block_leaf(key: u64, keybits: u8, version: u64) -> Ref
    ensures leaf { is_indirect result ≡ false }
    ensures other { result.kind ≡ Inode → ⊥ }
    ensures some { result.kind ≡ Empty → ⊥ }
    ensures key { result.key ≡ key }
    ensures keybits { result.keybits ≡ keybits }
{
    Ref {
        kind: Kind::Content,
        key,
        keybits,
        place: PLACE,
        radix: 14,
        id: version,
        check: Check::Xx(0),
        dirent: None,
    }
}

// A leaf that is the entry of a name, which stands in it.
fn entry_leaf(key: u64, keybits: u8, version: u64) -> Ref
    ensures leaf { is_indirect result ≡ false }
    ensures other { result.kind ≡ Inode → ⊥ }
    ensures some { result.kind ≡ Empty → ⊥ }
    ensures key { result.key ≡ key }
    ensures keybits { result.keybits ≡ keybits }
{
    let mut name = [0u8; 64];
    name[0] = b'x';
    Ref {
        kind: Kind::Dirent,
        key,
        keybits,
        place: 0,
        radix: 0,
        id: version,
        check: Check::Nothing,
        dirent: Some(Dirent {
            number: 1,
            len: 1,
            target: 2,
            name,
        }),
    }
}

// Whether a leaf of a tree may have the key.
fn is_leaf_key(keys: KeyClass, key: u64, leaf_bits: u8) -> bool
    ensures { IsTrue result → IsLeafKey keys key leaf_bits }
{
    if leaf_bits > 14 {
        return false;
    }
    if key % length_of(leaf_bits) != 0 {
        return false;
    }
    if length_of(leaf_bits) > LONGEST {
        return false;
    }
    match keys {
        KeyClass::Low => key < 1 << 62,
        KeyClass::High => is_high(key),
    }
}

// Whether a key is in the upper half of all, and not in its last leaf.
fn is_high(key: u64) -> bool
    ensures { IsTrue result → (2 ^ 63 ≤ key) × (key + 16384 ≤ 2 ^ 64) }
{
    if key < 1 << 63 {
        return false;
    }
    key <= u64::MAX - LONGEST
}

// How many keys a range has.
fn length_of(keybits: u8) -> u64
    requires { keybits < 64 }
    ensures { result ≡ 2 ^ keybits }
{
    1u64 << keybits
}
