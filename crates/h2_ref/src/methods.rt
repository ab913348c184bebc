ghost use Rattle.std.specs.Prelude.{◌≡◌, ◌+◌};
ghost use Rattle.h2_num.specs.Places.{number_at, places, ZeroIn};
ghost use Rattle.h2_ref.specs.Methods.{check_value, method_of, method_row};
ghost use Rattle.h2_ref.specs.Ref.{IsStored, check_len};
ghost use Rattle.h2_ref.specs.Reading.{check_of};

use crate::layout::{AREA_AT, REF_BYTES};
use crate::reference::Check;
use h2_num::{get32, get64, put32, put64};

/// How a block is checked.
#[derive(Clone, Copy)]
pub enum Method {
    /// There is no block, and no check.
    Absent,
    /// XXH64 with seed 0, of a block of files and directories.
    Xxhash64,
    /// CRC-32C, of a block of the freemap.
    Freemap,
}

/// How a method's check stands in a reference: a row of the table of methods. This file has all that tells
/// one method from another.
#[derive(Clone, Copy)]
pub struct MethodRow {
    /// The number of the method.
    pub number: u8,
    /// How many bytes of the check area the check takes.
    pub area: usize,
}

/// The row of a method.
pub fn method_row(method: Method) -> MethodRow
    ensures { result ≡ method_row method }
{
    match method {
        Method::Absent => MethodRow { number: 0, area: 0 },
        Method::Xxhash64 => MethodRow { number: 3, area: 8 },
        Method::Freemap => MethodRow { number: 5, area: 4 },
    }
}

/// The method of a check.
pub fn method_of(check: Check) -> Method
    ensures method { result ≡ method_of check }
    ensures stored { IsStored check }
{
    match check {
        Check::Nothing => Method::Absent,
        Check::Xx(_) => Method::Xxhash64,
        Check::Crc(_) => Method::Freemap,
    }
}

/// The check of a method that stands in the bytes.
pub fn check_of(method: Method, b: &[u8; REF_BYTES]) -> Check
    ensures { result ≡ check_of method (places b.now) }
{
    match method {
        Method::Absent => Check::Nothing,
        Method::Xxhash64 => Check::Xx(get64(b, AREA_AT)),
        Method::Freemap => Check::Crc(get32(b, AREA_AT)),
    }
}

/// The check in its place, over zeros.
pub fn check_over_zeros(check: Check) -> [u8; REF_BYTES]
    ensures front { ZeroIn 0 64 (places result) }
    ensures check { number_at (places result) 64 (check_len check) ≡ check_value check }
    ensures tail { ZeroIn (64 + check_len check) 128 (places result) }
{
    let mut b = [0; REF_BYTES];
    match check {
        Check::Nothing => {}
        Check::Xx(n) => put64(&mut b, AREA_AT, n),
        Check::Crc(n) => put32(&mut b, AREA_AT, n),
    }
    b
}
