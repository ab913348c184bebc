ghost use Rattle.std.specs.Prelude.{◌≡◌, ◌≤◌, ◌↔◌, IsTrue, length, take};
ghost use Rattle.h2_num.specs.Places.{places, ZeroIn};
ghost use Rattle.h2_dirkey.specs.Block.{NameBytes};

use crate::name::NAME_BYTES;
use h2_num::{first_nonzero, put_bytes};

/// The bytes of a name's block.
pub const NAME_BLOCK_BYTES: usize = 1024;

/// The least length of a name that has a block of its own, in bytes. A shorter one stands in its entry.
const LONG_NAME_BYTES: usize = 65;

/// The block of a name of 65 to 255 bytes: the name, and then zeros.
pub fn name_block(name: &[u8]) -> [u8; NAME_BLOCK_BYTES]
    requires long { 65 ≤ length name.now }
    requires few { length name.now ≤ 255 }
    ensures { NameBytes name.now (places result) }
{
    let mut block = [0; NAME_BLOCK_BYTES];
    put_bytes(&mut block, 0, name);
    block
}

/// Whether the block begins with the name.
fn begins_with(b: &[u8; NAME_BLOCK_BYTES], name: &[u8]) -> bool
    requires { length name.now ≤ 255 }
    ensures { IsTrue result ↔ (take (length name.now) b.now ≡ name.now) }
{
    &b[..name.len()] == name
}

/// Whether zeros stand in the block from a place on.
fn is_zero_from(b: &[u8; NAME_BLOCK_BYTES], from: usize) -> bool
    requires { from ≤ 1024 }
    ensures { IsTrue result ↔ ZeroIn from 1024 (places b.now) }
{
    first_nonzero(b, from, NAME_BLOCK_BYTES).is_none()
}

/// Whether the block is that of a name of 65 to 255 bytes.
fn is_block_of(b: &[u8; NAME_BLOCK_BYTES], name: &[u8]) -> bool
    requires long { 65 ≤ length name.now }
    requires few { length name.now ≤ 255 }
    ensures { IsTrue result ↔ NameBytes name.now (places b.now) }
{
    begins_with(b, name) && is_zero_from(b, name.len())
}

/// Whether the block is that of the name. No block is that of a name of fewer than 65 or more than 255
/// bytes.
pub fn name_matches(b: &[u8; NAME_BLOCK_BYTES], name: &[u8]) -> bool
    ensures { IsTrue result ↔ NameBytes name.now (places b.now) }
{
    if name.len() < LONG_NAME_BYTES || name.len() > NAME_BYTES {
        return false;
    }
    is_block_of(b, name)
}
