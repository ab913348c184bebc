ghost use Rattle.std.specs.Prelude.{◌≡◌, ◌↔◌, ◌<◌, ◌≤◌, ◌+◌, ◌^◌, IsOk, OnErr};

use h2_ref::Trouble;

/// Why a file isn't read or changed.
#[derive(Drop, Debug)]
pub enum FileFault {
    /// The range would end past 2^40 bytes, the most that a file may have.
    Long,
    /// A block couldn't be loaded, or memory is wanting.
    Trouble(Trouble),
}

/// The most bytes of a file.
pub const FILE_BYTES: u64 = 1_099_511_627_776;

/// Whether `len` bytes from the place `off` on end within the most bytes that a file may have, 2^40. `Long`
/// exactly where they don't.
pub fn check_end(off: u64, len: u64) -> Result<(), FileFault>
    ensures exact { IsOk result ↔ (off + len ≤ 2 ^ 40) }
    ensures long { OnErr result (result ≡ Err FileFault.Long) }
{
    if off > FILE_BYTES || len > FILE_BYTES - off {
        return Err(FileFault::Long);
    }
    Ok(())
}
