//! Encoding and decoding references.
ghost use Rattle.std.specs.Prelude.{All, IfOk, OnOk};
ghost use Rattle.h2_ref.specs.Ref.{IsValid};

use crate::samples::{content_ref, indirect_ref, inode_ref, join, long_entry, short_entry};
use h2_num::get64;
use h2_ref::{Check, REF_BYTES, Ref, decode, encode};
use std::alloc::{AllocError, Global};

/// How many references the samples are.
pub const REFERENCES: u8 = 60;

/// Sample number `i`, of one of the five kinds that files and directories have.
fn sample(i: u8) -> Ref {
    match i % 5 {
        0 => inode_ref(i),
        1 => indirect_ref(i),
        2 => content_ref(i),
        3 => short_entry(i),
        _ => long_entry(i),
    }
}

/// Appends a reference.
fn push(refs: &mut Vec<Ref>, r: Ref) -> Result<(), AllocError>
    requires before { All IsValid refs.old.items }
    requires valid { IsValid r }
    ensures { OnOk result (All IsValid refs.new.items) }
{
    refs.push(r)?;
    Ok(())
}

/// The samples.
pub fn references(alloc: Global) -> Result<Vec<Ref>, AllocError>
    ensures { IfOk result (λ refs. All IsValid refs.items) }
{
    let mut refs = Vec::new(alloc);
    for i in 0..REFERENCES {
        let r = sample(i);
        if r.valid() {
            push(&mut refs, r)?;
        }
    }
    Ok(refs)
}

/// The bytes of references.
pub fn spellings(alloc: Global, refs: &[Ref]) -> Result<Vec<[u8; REF_BYTES]>, AllocError>
    requires { All IsValid refs.now }
{
    let mut spellings = Vec::new(alloc);
    for r in refs.iter() {
        spellings.push(encode(r))?;
    }
    Ok(spellings)
}

/// Encodes each reference, and joins a word of each one's bytes to a number that says which.
pub fn encode_all(refs: &[Ref], start: u64) -> u64
    requires { All IsValid refs.now }
{
    let mut joined = start;
    for r in refs.iter() {
        let bytes = encode(r);
        joined = join(joined, get64(&bytes, 8 * (joined % 16) as usize));
    }
    joined
}

/// What a reference says, as one number.
pub fn number_of(r: &Ref) -> u64 {
    let check = match r.check {
        Check::Nothing => 0,
        Check::Crc(n) => n as u64,
        Check::Xx(n) => n,
    };
    let entry = match &r.dirent {
        None => 0,
        Some(e) => e.number ^ get64(&e.name, 0),
    };
    r.key ^ r.place ^ r.id ^ check ^ entry
}

/// Decodes each reference, and joins what they say to a number.
pub fn decode_all(spellings: &[[u8; REF_BYTES]], start: u64) -> u64 {
    let mut joined = start;
    for bytes in spellings.iter() {
        let number = match decode(bytes) {
            Ok(r) => number_of(&r),
            Err(_) => 1,
        };
        joined = join(joined, number);
    }
    joined
}
