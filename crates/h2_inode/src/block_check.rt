ghost use Rattle.std.specs.Prelude.{◌≡◌, length};
ghost use Rattle.h2_num.specs.Places.{places};
ghost use Rattle.h2_check.specs.Xxh.{xxh64_of};

use h2_check::xxh64;
use h2_ref::{Check, Kind};

/// The check of a block of files and directories: the XXH64 of its bytes, whichever of the kinds Inode,
/// Indirect, Content and Dirent names it. Blocks of the freemap have another one.
pub fn check_of(_kind: Kind, bytes: &[u8]) -> Check
    ensures { result ≡ Check.Xx (xxh64_of (places bytes.now) (length bytes.now)) }
{
    Check::Xx(xxh64(bytes))
}
