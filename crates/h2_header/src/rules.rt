ghost use Rattle.std.specs.Prelude.{◌↔◌, IsTrue};
ghost use Rattle.h2_ref.specs.Ref.{IsValid};
ghost use Rattle.h2_header.specs.Header.{IsRootKind, IsRootRef};
ghost use Rattle.h2_header.specs.Fault.{IsNumberOf, IsNextPfs};
ghost use Rattle.h2_geom.specs.Geometry.{IsZoneCount};

use crate::map_blocks::turn_of;
use h2_geom::Geometry;
use h2_ref::{Kind, Ref};

/// Numbers and ids are up to this one.
const LAST_NUMBER: u64 = 1 << 62;

/// The keys of the super-root are below this.
const ROOT_KEYS_END: u64 = 1 << 62;

/// Whether a volume may have so many zones.
pub fn is_zone_count(zones: u32) -> bool
    ensures { IsTrue result ↔ IsZoneCount zones }
{
    Geometry::of(zones).is_some()
}

/// Whether it is the number of a checkpoint whose header has its turn in the slot.
pub fn is_number_of(slot: u32, number: u64) -> bool
    ensures { IsTrue result ↔ IsNumberOf slot number }
{
    number >= 1 && number <= LAST_NUMBER && turn_of(number) == slot
}

/// Whether it is the id of a PFS that may come next.
pub fn is_next_pfs(id: u64) -> bool
    ensures { IsTrue result ↔ IsNextPfs id }
{
    id >= 2 && id <= LAST_NUMBER
}

/// Whether the super-root may hold references of the kind.
fn is_root_kind(kind: Kind) -> bool
    ensures { IsTrue result ↔ IsRootKind kind }
{
    match kind {
        Kind::Empty | Kind::Inode | Kind::Indirect => true,
        Kind::Content | Kind::Dirent | Kind::MapNode | Kind::MapLeaf => false,
    }
}

/// Whether the super-root may hold the reference.
pub fn is_root_ref(r: &Ref) -> bool
    requires { IsValid r.now }
    ensures { IsTrue result ↔ IsRootRef r.now }
{
    is_root_kind(r.kind) && r.key < ROOT_KEYS_END
}
