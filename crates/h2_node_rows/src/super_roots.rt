ghost use Rattle.std.specs.Prelude.{◌≡◌, IfOk, IfSome};
ghost use Rattle.h2_memory_sets.specs.Seen.{forest_of};
ghost use Rattle.h2_node_rows.specs.LeafUnderTest.{IsNumberedLeaf};
ghost use Rattle.h2_node_rows.specs.VolumeUnderTest.{IsTop};

use h2_memory_sets::MemorySets;
use h2_num::NoMemory;
use h2_ref::{Check, Kind, Ref};
use h2_set::{NodeId, Sets};
use std::alloc::Global;

/// The epoch of what is made.
const EPOCH: u64 = 5;

/// How many blocks can be taken: more than all tests take.
const ROOM: u64 = 1_000_000_000;

/// Where the blocks of inodes lie: a place of a block of 1 KiB.
pub const INODE_PLACE: u64 = 1 << 23;

/// Where all indirect blocks of sets in memory lie.
pub const BLOCK_PLACE: u64 = 0x40_0000;

/// A super-root without a leaf.
pub fn super_root(alloc: Global) -> Result<(MemorySets, NodeId), NoMemory>
    ensures { IfOk result (λ p. let c = p.1 in IsTop (forest_of p.0) c.0) }
{
    let mut nodes = MemorySets::new(alloc, EPOCH, ROOM);
    let root = nodes.add_super_root()?;
    nodes.ready(alloc, 4)?;
    Ok((nodes, root))
}

/// The leaf of the inode with a number. None where no inode has the number.
pub fn numbered_leaf(number: u64) -> Option<Ref>
    ensures leaf { IfSome result IsNumberedLeaf }
    ensures number { IfSome result (λ r. r.key ≡ number) }
{
    if number >= 1 << 62 {
        return None;
    }
    let leaf = Ref {
        kind: Kind::Inode,
        key: number,
        keybits: 0,
        place: INODE_PLACE,
        radix: 10,
        id: EPOCH,
        check: Check::Xx(0),
        dirent: None,
    };
    if !leaf.valid() {
        return None;
    }
    Some(leaf)
}
