ghost use Rattle.std.specs.Prelude.{◌≡◌, length};
ghost use Rattle.h2_num.specs.Places.{places};
ghost use Rattle.h2_check.specs.Crc.{crc32c_of};
ghost use Rattle.h2_ref.specs.declared.reference.Check.TheVariants.{Crc};
ghost use Rattle.h2_header.specs.Map.{IsMapKind};

use h2_check::crc32c;
use h2_ref::{Check, Kind};

/// The check of a block of the freemap, a node or a leaf: the CRC-32C of its bytes.
pub fn check_of(kind: Kind, bytes: &[u8]) -> Check
    requires { IsMapKind kind }
    ensures { result ≡ Crc (crc32c_of (places bytes.now) (length bytes.now)) }
{
    match kind {
        Kind::MapNode | Kind::MapLeaf => Check::Crc(crc32c(bytes)),
        _ => unreachable!(),
    }
}
