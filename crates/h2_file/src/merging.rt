ghost use Rattle.std.specs.Prelude.{◌≡◌, ◌<◌, ◌≤◌, ◌+◌, length, slice_index};
ghost use Rattle.h2_num.specs.Places.{Lays, places};
ghost use Rattle.h2_contents.specs.Windows.{LaysInto};

use h2_num::put_bytes;

/// Puts the part of the bytes, which stand at the place `off` of a file, into its block that begins at
/// `start`, which has 16384 bytes. Nothing else of the block changes.
pub fn merge(block: &mut [u8], start: u64, off: u64, bytes: &[u8])
    requires { length block.old ≡ 16384 }
    ensures laid { LaysInto off bytes.now start block.old block.new }
    ensures long { length block.new ≡ 16384 }
{
    if off < start {
        merge_from(block, start - off, bytes);
    } else {
        merge_at(block, off - start, bytes);
    }
}

/// Puts the bytes from the place `from` of theirs on at the start of the block.
fn merge_from(block: &mut [u8], from: u64, bytes: &[u8])
    ensures laid { LaysInto 0 bytes.now from block.old block.new }
    ensures long { length block.new ≡ length block.old }
{
    if from >= bytes.len() as u64 {
        return;
    }
    let from = from as usize;
    let count = (bytes.len() - from).min(block.len());
    put_bytes(block, 0, &bytes[from..from + count]);
}

/// Puts the bytes at a place of the block, up to its end.
fn merge_at(block: &mut [u8], at: u64, bytes: &[u8])
    ensures laid { LaysInto at bytes.now 0 block.old block.new }
    ensures long { length block.new ≡ length block.old }
{
    if at >= block.len() as u64 {
        return;
    }
    let at = at as usize;
    let count = bytes.len().min(block.len() - at);
    put_bytes(block, at, &bytes[..count]);
}
