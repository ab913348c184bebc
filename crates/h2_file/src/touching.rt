ghost use Rattle.std.specs.Prelude.{◌≡◌, ◌↔◌, ◌<◌, ◌≤◌, ◌+◌, ◌^◌, IsTrue};
ghost use Rattle.h2_file.specs.Touching.{IsTouched, HasEmbeddedText};

use crate::blocks::Touched;

/// The bytes of a block of a file's contents.
pub const BLOCK_BYTES: u64 = 16384;

/// The most bytes of a file that lies in its inode.
pub const EMBEDDED_BYTES: u64 = 512;

/// The blocks that are put anew where `len` bytes are written at the place `off` of a file of `size` bytes.
/// There are none where the file then still fits into its inode.
pub fn touched(size: u64, off: u64, len: u32) -> Touched
    requires some { 0 < len }
    requires end { off + len ≤ 2 ^ 40 }
    ensures touched { IsTouched size off len result }
    ensures few { result.count ≤ 2 ^ 18 + 1 }
{
    let end = off + len as u64;
    if size.max(end) <= EMBEDDED_BYTES {
        return Touched {
            first: 0,
            count: 0,
            lift: false,
        };
    }
    let first = off / BLOCK_BYTES;
    let last = (end - 1) / BLOCK_BYTES;
    Touched {
        first,
        count: (last - first + 1) as u32,
        lift: first > 0 && is_embedded_text(size),
    }
}

/// Whether a file of so many bytes has some, in its inode.
fn is_embedded_text(size: u64) -> bool
    ensures { IsTrue result ↔ HasEmbeddedText size }
{
    size > 0 && size <= EMBEDDED_BYTES
}
