ghost use Rattle.std.specs.Prelude.{◌≡◌, ◌≤◌, ◌<◌, length, IfSome, IfNone};
ghost use Rattle.h2_plain_ledger.specs.Buying.{IsPaid, CannotPay, IsBought, CannotBuy};

use crate::codes::{free_chunks, lowest_free};
use h2_codes::Code;

/// What pays for a free chunk.
#[derive(Clone, Copy, Debug, PartialEq, Eq)]
pub enum Payment {
    /// A chunk that was reserved before.
    FromReserved,
    /// A chunk that is free beyond all that is reserved.
    FromFree,
}

/// A free chunk that is paid for.
#[derive(Clone, Copy, Debug, PartialEq, Eq)]
pub struct Bought {
    pub chunk: u32,
    /// How many chunks are reserved afterwards.
    pub reserved: u64,
}

/// The lowest free chunk, with so many chunks reserved. None exactly where there is none, or it can't be
/// paid for so.
pub fn buy(codes: &[Code], reserved: u64, payment: Payment) -> Option<Bought>
    requires few { length codes.now ≤ 1048576 }
    ensures bought { IfSome result (IsBought codes.now reserved payment) }
    ensures refused { IfNone result (CannotBuy codes.now reserved payment) }
{
    let chunk = lowest_free(codes)?;
    let reserved = pay(codes, reserved, payment)?;
    Some(Bought { chunk, reserved })
}

/// What is reserved after a payment, where one can pay so.
pub fn pay(codes: &[Code], reserved: u64, payment: Payment) -> Option<u64>
    requires few { length codes.now ≤ 1048576 }
    ensures paid { IfSome result (IsPaid codes.now reserved payment) }
    ensures refused { IfNone result (CannotPay codes.now reserved payment) }
{
    match payment {
        Payment::FromReserved => reserved.checked_sub(1),
        Payment::FromFree if reserved < free_chunks(codes) => Some(reserved),
        Payment::FromFree => None,
    }
}
