ghost use Rattle.std.specs.Prelude.{◌≡◌, ◌++◌, ◌∷◌, [], ℕ, List, IfOk, OnOk, map};
ghost use Rattle.h2_num.specs.Places.{places};
ghost use Rattle.h2_geom.specs.Geometry.{IsZoneCount};
ghost use Rattle.h2_image.specs.NewVolume.{directory_place, inode_ref, pfs_place};
ghost use Rattle.h2_cmd.specs.Planning.{AreInodes, IsPlanned, inode_pieces, piece_of};

use crate::blocks::{SMALL_BLOCK_BYTES, root_directory_block, root_pfs_block};
use crate::taking::{InodeBlocks, fresh_freemap, take_inode_blocks};
use h2_check::xxh64;
use h2_checkpoint::Piece;
use h2_freeleaf::{MapPlan, plan};
use h2_header::Header;
use h2_num::{Block, Bytes, NoMemory};
use h2_ref::{Check, Kind, Ref};
use std::alloc::Global;

// The number of the first checkpoint.
const FIRST_NUMBER: u64 = 1;

/// What formatting writes: the blocks in order, and then the header.
#[derive(Drop)]
pub struct Plan {
    /// The blocks with their places, in the order of writing.
    pub pieces: Vec<Piece>,
    /// The header that names them.
    pub header: Header,
}

// The reference to the inode with number or id 1 whose bytes stand in a block of 1 KiB.
fn make_inode_ref(at: Block, block: &[u8; SMALL_BLOCK_BYTES]) -> Ref
    requires { at.radix ≡ 10 }
    ensures { result ≡ inode_ref at.place (places block.now) }
{
    Ref {
        kind: Kind::Inode,
        key: 1,
        keybits: 0,
        place: at.place,
        radix: at.radix,
        id: 1,
        check: Check::Xx(xxh64(block)),
        dirent: None,
    }
}

// Adds a block to the pieces, or changes nothing.
fn push_block(
    alloc: Global,
    pieces: &mut Vec<Piece>,
    at: u64,
    block: &[u8; SMALL_BLOCK_BYTES],
) -> Result<(), NoMemory>
    ensures { OnOk result (pieces.new.items ≡ pieces.old.items ++ record { at = at; bytes = block.now } ∷ []) }
{
    let bytes = Bytes::from_slice(alloc, block)?;
    pieces.push(Piece { at, bytes })?;
    Ok(())
}

// The pieces of the two inodes, and the reference to the PFS.
fn plan_inodes(
    alloc: Global,
    pieces: &mut Vec<Piece>,
    blocks: &InodeBlocks,
) -> Result<Ref, NoMemory>
    requires none { pieces.old.items ≡ [] }
    requires directory { blocks.now.directory.place ≡ directory_place }
    requires directory_radix { blocks.now.directory.radix ≡ 10 }
    requires pfs { blocks.now.pfs.place ≡ pfs_place }
    requires pfs_radix { blocks.now.pfs.radix ≡ 10 }
    ensures { IfOk result (λ r. (directory : List ℕ) × (pfs : List ℕ) × AreInodes directory pfs
        × (pieces.new.items ≡ inode_pieces directory pfs) × (r ≡ inode_ref pfs_place (places pfs))) }
{
    let directory = root_directory_block();
    let directory_ref = make_inode_ref(blocks.directory, &directory);
    let pfs = root_pfs_block(&directory_ref);
    push_block(alloc, pieces, blocks.directory.place, &directory)?;
    push_block(alloc, pieces, blocks.pfs.place, &pfs)?;
    Ok(make_inode_ref(blocks.pfs, &pfs))
}

// Adds the writes of the freemap to the pieces, in their order.
fn add_writes(pieces: &mut Vec<Piece>, writes: Vec<(u64, Bytes)>) -> Result<(), NoMemory>
    ensures { OnOk result (pieces.new.items ≡ pieces.old.items ++ map piece_of writes.items) }
{
    for write in writes {
        let (at, bytes) = write;
        pieces.push(Piece { at, bytes })?;
    }
    Ok(())
}

/// The blocks and the header of a new volume of so many zones.
pub fn plan_volume(alloc: Global, zones: u32) -> Result<Plan, NoMemory>
    requires { IsZoneCount zones }
    ensures { IfOk result (λ plan. IsPlanned zones plan.pieces.items plan.header) }
{
    let mut freemap = fresh_freemap(alloc, zones)?;
    let blocks = take_inode_blocks(&mut freemap);
    let MapPlan { writes, top } = plan(alloc, &freemap, FIRST_NUMBER)?;
    let mut pieces = Vec::new(alloc);
    let pfs = plan_inodes(alloc, &mut pieces, &blocks)?;
    add_writes(&mut pieces, writes)?;
    let header = Header {
        number: FIRST_NUMBER,
        zones,
        map_number: FIRST_NUMBER,
        next_pfs: 2,
        root: [pfs, Ref::empty(), Ref::empty(), Ref::empty()],
        map: top,
    };
    Ok(Plan { pieces, header })
}
