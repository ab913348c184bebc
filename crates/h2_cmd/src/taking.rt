ghost use Rattle.std.specs.Prelude.{◌≡◌, IfOk};
ghost use Rattle.h2_geom.specs.Geometry.{IsZoneCount};
ghost use Rattle.h2_freemap.specs.Made.{IsFresh};
ghost use Rattle.h2_image.specs.NewVolume.{AreNewSegments, directory_place, pfs_place};
ghost use Rattle.h2_cmd.specs.Taking.{TakesInodes};

use h2_freemap::{Freemap, Size};
use h2_geom::Geometry;
use h2_num::{Block, NoMemory};
use std::alloc::Global;

/// The blocks of the two inodes of a new volume.
#[derive(Clone, Copy, Debug, PartialEq, Eq)]
pub(crate) struct InodeBlocks {
    /// The block of the root directory.
    pub directory: Block,
    /// The block of the PFS.
    pub pfs: Block,
}

/// The freemap of a new volume of so many zones, of which nothing is taken.
pub(crate) fn fresh_freemap(alloc: Global, zones: u32) -> Result<Freemap, NoMemory>
    requires { IsZoneCount zones }
    ensures { IfOk result (λ freemap. IsFresh zones freemap) }
{
    let geometry = Geometry::of(zones).unwrap();
    Freemap::fresh(alloc, geometry)
}

/// Takes the blocks of the two inodes, each of 1 KiB, from the freemap of a new volume.
pub(crate) fn take_inode_blocks(freemap: &mut Freemap) -> InodeBlocks
    requires zones { IsZoneCount freemap.old.zones }
    requires fresh { IsFresh freemap.old.zones freemap.old }
    ensures taken { TakesInodes freemap.old freemap.new result.directory result.pfs }
    ensures zones { freemap.new.zones ≡ freemap.old.zones }
    ensures codes { AreNewSegments freemap.new.zones freemap.new.segments }
    ensures directory { result.directory.place ≡ directory_place }
    ensures directory_radix { result.directory.radix ≡ 10 }
    ensures pfs { result.pfs.place ≡ pfs_place }
    ensures pfs_radix { result.pfs.radix ≡ 10 }
{
    let directory = freemap.take(Size::Small);
    let pfs = freemap.take(Size::Small);
    // The size is asked for, so that the proof learns what holds of each freemap.
    let _ = freemap.geometry();
    InodeBlocks { directory, pfs }
}
