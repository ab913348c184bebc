ghost use Rattle.std.specs.Prelude.{◌≡◌, length};
ghost use Rattle.h2_num.specs.Places.{places};
ghost use Rattle.h2_check.specs.Crc.{crc32c_of};

use h2_check::crc32c;

/// What each header begins with.
pub const MAGIC: &[u8; 8] = b"H2VOLUME";

/// The version of the format.
pub const VERSION: u32 = 1;

// Places of the fields in the block, in bytes.
pub const MAGIC_AT: usize = 0;

pub const VERSION_AT: usize = 8;

pub const ZONES_AT: usize = 12;

pub const NUMBER_AT: usize = 16;

pub const MAP_NUMBER_AT: usize = 24;

pub const NEXT_PFS_AT: usize = 32;

pub const NUMBERS_END: usize = 40;

pub const ROOT_AT: usize = 512;

pub const MAP_AT: usize = 1024;

pub const MAP_END: usize = 2048;

pub const CHECK_AT: usize = 65532;

/// The check of the block of a header: CRC-32C of all bytes before it.
pub fn check_of(b: &[u8]) -> u32
    requires { length b.now ≡ 65536 }
    ensures { result ≡ crc32c_of (places b.now) 65532 }
{
    crc32c(b.split_at(CHECK_AT).0)
}
