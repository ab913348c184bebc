ghost use Rattle.std.specs.Prelude.{◌≡◌, ◌<◌, ◌≤◌, ◌+◌, length, slice_index, MatchOption};
ghost use Rattle.h2_num.specs.Places.{places, number_at, Puts, Lays, ZeroIn};

use byteorder::{ByteOrder, LittleEndian};

/// The little-endian number in the two bytes at a place.
pub fn get16(b: &[u8], at: usize) -> u16
    requires { at + 2 ≤ length b.now }
    ensures { result ≡ number_at (places b.now) at 2 }
{
    LittleEndian::read_u16(&b[at..])
}

/// The little-endian number in the four bytes at a place.
pub fn get32(b: &[u8], at: usize) -> u32
    requires { at + 4 ≤ length b.now }
    ensures { result ≡ number_at (places b.now) at 4 }
{
    LittleEndian::read_u32(&b[at..])
}

/// The little-endian number in the eight bytes at a place.
pub fn get64(b: &[u8], at: usize) -> u64
    requires { at + 8 ≤ length b.now }
    ensures { result ≡ number_at (places b.now) at 8 }
{
    LittleEndian::read_u64(&b[at..])
}

/// Puts a byte at a place.
pub fn put8(b: &mut [u8], at: usize, v: u8)
    requires { at < length b.old }
    ensures { Puts at 1 v (places b.old) (places b.new) }
{
    b[at] = v;
}

/// Puts a little-endian number into the two bytes at a place.
pub fn put16(b: &mut [u8], at: usize, v: u16)
    requires { at + 2 ≤ length b.old }
    ensures { Puts at 2 v (places b.old) (places b.new) }
{
    LittleEndian::write_u16(&mut b[at..], v);
}

/// Puts a little-endian number into the four bytes at a place.
pub fn put32(b: &mut [u8], at: usize, v: u32)
    requires { at + 4 ≤ length b.old }
    ensures { Puts at 4 v (places b.old) (places b.new) }
{
    LittleEndian::write_u32(&mut b[at..], v);
}

/// Puts a little-endian number into the eight bytes at a place.
pub fn put64(b: &mut [u8], at: usize, v: u64)
    requires { at + 8 ≤ length b.old }
    ensures { Puts at 8 v (places b.old) (places b.new) }
{
    LittleEndian::write_u64(&mut b[at..], v);
}

/// Puts bytes at a place.
pub fn put_bytes(b: &mut [u8], at: usize, bytes: &[u8])
    requires { at + length bytes.now ≤ length b.old }
    ensures { Lays at bytes.now (places b.old) (places b.new) }
{
    b[at..at + bytes.len()].copy_from_slice(bytes);
}

/// Zeros in all places.
pub fn clear(b: &mut [u8])
    ensures { ZeroIn 0 (length b.new) (places b.new) }
{
    b.fill(0);
}

/// A place from `from` up to `to` before which each byte is zero, found eight bytes at a time: fewer than eight are left
/// behind it, or the eight there aren't all zero.
fn behind_zeros(b: &[u8], from: usize, to: usize) -> usize
    requires ordered { from ≤ to }
    requires within { to ≤ length b.now }
    ensures least { from ≤ result }
    ensures most { result ≤ to }
    ensures zeros { ZeroIn from result (places b.now) }
{
    let words = (to - from) / 8;
    for i in 0..words {
        let word = get64(b, from + 8 * i);
        if word != 0 {
            return from + 8 * i;
        }
    }
    from + 8 * words
}

/// The least place from `from` up to before `to` whose byte isn't zero, or None where each is.
pub fn first_nonzero(b: &[u8], from: usize, to: usize) -> Option<usize>
    requires ordered { from ≤ to }
    requires within { to ≤ length b.now }
    ensures { MatchOption result (ZeroIn from to (places b.now))
        (λ at. (from ≤ at) × (at < to) × (0 < slice_index b.now at) × ZeroIn from at (places b.now)) }
{
    let start = behind_zeros(b, from, to);
    for at in start..to {
        if b[at] != 0 {
            return Some(at);
        }
    }
    None
}
