//! Bytes, each with the codes of four chunks, or with the flags of eight.

ghost use Rattle.std.specs.Prelude.{◌≡◌, ◌<◌, ◌*◌, ◌/◌, ◌%◌, ◌^◌, set, true};
ghost use Rattle.std.specs.Int.{bit_at};
ghost use Rattle.h2_codes.specs.Layout.{code_number};
ghost use Rattle.h2_codes.specs.Packed.{code_of, flag_of, byte_codes, byte_flags, IsSpread};

use crate::code::Code;

/// The code of chunk `k`, of 4, in a byte.
pub fn code_in(byte: u8, k: u8) -> Code
    requires { k < 4 }
    ensures { result ≡ code_of (byte / 2 ^ (2 * k) % 4) }
{
    match (byte >> (2 * k)) % 4 {
        0 => Code::Free,
        1 => Code::Reserved,
        2 => Code::Staged,
        _ => Code::Used,
    }
}

/// The two bits of a code.
fn bits_of(code: Code) -> u8
    ensures { result ≡ code_number code }
{
    match code {
        Code::Free => 0,
        Code::Reserved => 1,
        Code::Staged => 2,
        Code::Used => 3,
    }
}

/// The byte in which chunk `k`, of 4, has another code.
pub fn with_code(byte: u8, k: u8, code: Code) -> u8
    requires { k < 4 }
    ensures { byte_codes result ≡ set (byte_codes byte) k code }
{
    (byte & !(3 << (2 * k))) | (bits_of(code) << (2 * k))
}

/// Flag `k`, of 8, of a byte.
pub fn flag_in(byte: u8, k: u8) -> bool
    requires { k < 8 }
    ensures { result ≡ flag_of (bit_at byte k) }
{
    (byte >> k) % 2 == 1
}

/// The byte in which flag `k`, of 8, is set.
pub fn with_flag(byte: u8, k: u8) -> u8
    requires { k < 8 }
    ensures { byte_flags result ≡ set (byte_flags byte) k true }
{
    byte | (1 << k)
}

/// The eight flags of a byte, each at the lower of two bits.
pub fn spread(byte: u8) -> u64
    ensures { IsSpread byte result }
{
    let halves = (byte as u64 | ((byte as u64) << 4)) & 0x0f0f;
    let pairs = (halves | (halves << 2)) & 0x3333;
    (pairs | (pairs << 1)) & 0x5555
}
