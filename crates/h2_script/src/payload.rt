ghost use Rattle.std.specs.Prelude.{◌≡◌, ◌≤◌, length, MatchResult};
ghost use Rattle.h2_script.specs.Payloads.{IsFewBytes, SpellsPlain, SpellsRepeat, SpellsPayload, IsFaultOfData};
ghost use Rattle.h2_script.specs.Refusals.{RefusedBy};

use crate::cut::cut_at_colon;
use crate::fault::{LineFault, Refusal};
use crate::number::{Amount, DATA_BYTES, read_amount, read_byte};
use h2_command::Payload;
use h2_num::Bytes;
use hex::FromHexError;
use std::alloc::Global;

// The bytes that the hexadecimal digits are.
fn read_plain(alloc: Global, digits: &str) -> Result<Payload, Refusal>
    ensures { MatchResult result (λ p. SpellsPlain digits.now p × IsFewBytes p) (RefusedBy (IsFaultOfData (SpellsPlain digits.now))) }
{
    match hex::decode(alloc, digits.as_bytes()) {
        Ok(bytes) => {
            if bytes.len() > DATA_BYTES {
                return Err(Refusal::Fault(LineFault::TooLong));
            }
            Ok(Payload::Plain(Bytes::from_vec(bytes)))
        }
        Err(FromHexError::OutOfMemory) => Err(Refusal::NoMemory),
        Err(_) => Err(Refusal::Fault(LineFault::Payload)),
    }
}

// A count of bytes, a colon and the byte.
fn read_repeat(text: &str) -> Result<Payload, Refusal>
    ensures { MatchResult result (λ p. SpellsRepeat text.now p × IsFewBytes p) (RefusedBy (IsFaultOfData (SpellsRepeat text.now))) }
{
    let Some((count, byte)) = cut_at_colon(text) else {
        return Err(Refusal::Fault(LineFault::Payload));
    };
    let Some(count) = read_amount(count) else {
        return Err(Refusal::Fault(LineFault::Payload));
    };
    let Some(byte) = read_byte(byte) else {
        return Err(Refusal::Fault(LineFault::Payload));
    };
    match count {
        Amount::Few(count) => Ok(Payload::Repeat { count, byte }),
        Amount::Many => Err(Refusal::Fault(LineFault::TooLong)),
    }
}

/// The bytes that the word is, where they aren't too many.
pub fn read_payload(alloc: Global, word: &str) -> Result<Payload, Refusal>
    ensures { MatchResult result (λ p. SpellsPayload word.now p × IsFewBytes p) (RefusedBy (IsFaultOfData (SpellsPayload word.now))) }
{
    let Some((kind, rest)) = cut_at_colon(word) else {
        return Err(Refusal::Fault(LineFault::Payload));
    };
    match kind {
        "x" => read_plain(alloc, rest),
        "r" => read_repeat(rest),
        _ => Err(Refusal::Fault(LineFault::Payload)),
    }
}
