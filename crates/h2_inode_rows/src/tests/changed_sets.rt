use super::changed_refs::{Slot, fault_of as ref_fault_of, number, spelling};
use super::judging::{judged_spelling, to_block};
use h2_ref::{Kind, Why};
use h2_set::{SetFault, decode_set};

// The references in front of the block, which is named by one for the keys from 0 up to below 64.
type Front = [Slot; 2];

const TWO: Front = [Slot::Inode(3), Slot::Indirect(8, 2)];

const ONE: Front = [Slot::Indirect(0, 2), Slot::Nothing];

const BLOCK_KEYBITS: u8 = 6;

fn slot_of(front: Front, i: usize) -> Slot {
    match i {
        0 => front[0],
        1 => front[1],
        _ => Slot::Nothing,
    }
}

fn bytes_of(front: Front) -> [u8; 4096] {
    let mut b = [0; 4096];
    for (i, slot) in front.iter().enumerate() {
        for (k, value) in spelling(*slot).iter().enumerate() {
            let at = 128 * i + k;
            if at < 4096 {
                b[at] = *value;
            }
        }
    }
    b
}

// Whether the ranges, each of a valid reference, are disjoint and ascend.
fn are_in_order(front: Front, b: &[u8]) -> bool {
    let first_end = number(b, 8).saturating_add(1 << (number(b, 2) % 64));
    front[1] == Slot::Nothing || first_end <= number(b, 128 + 8)
}

// Whether the block may hold them: each range ends at key 64 or before, and an indirect one has fewer keybits.
fn are_arranged(front: Front, b: &[u8]) -> bool {
    for (i, slot) in front.iter().enumerate() {
        let at = 128 * i;
        let keybits = number(b, at + 2) % 64;
        let wide = matches!(slot, Slot::Indirect(_, _)) && keybits >= BLOCK_KEYBITS as u64;
        if wide || number(b, at + 8).saturating_add(1 << keybits) > 1 << BLOCK_KEYBITS {
            return false;
        }
    }
    true
}

// What is at fault first in the bytes of which one, at the place, now has the value.
fn fault_of(front: Front, at: usize, value: u8, b: &[u8]) -> Option<SetFault> {
    let i = at % 4096 / 128;
    let bytes = b.get(128 * i..)?;
    match ref_fault_of(slot_of(front, i), at % 128, value, bytes) {
        Some(fault) => Some(SetFault::Reference {
            at: 128 * i as u32,
            fault,
        }),
        None => {
            if are_in_order(front, b) {
                None
            } else {
                Some(SetFault::Shape)
            }
        }
    }
}

fn why_of(fault: Option<SetFault>, arranged: bool) -> Option<Why> {
    match fault {
        Some(SetFault::Reference { at, fault }) => Some(Why::Reference { at, fault }),
        Some(SetFault::Shape) => Some(Why::Shape),
        None => { if arranged { None } else { Some(Why::Shape) } }
    }
}

// Whether the byte is tried with every value: it stands in a field of the first two references, but for their
// checks. All others must be zero or may be any, and are tried with a few values.
fn is_in_field(at: usize) -> bool {
    at < 256 && at % 128 < 43
}

// Whether the byte tells the range of one of the first two references.
fn is_of_range(at: usize) -> bool {
    at < 256 && (at % 128 == 2 || 8 <= at % 128 && at % 128 < 16)
}

// The first change for which the decoder or the judge tells another fault than the format.
fn first_mismatch(front: Front) -> Option<(usize, u8)> {
    let r = to_block(Kind::Indirect, 0, BLOCK_KEYBITS, 12, 0);
    let whole = bytes_of(front);
    for at in 0..4096usize {
        let mut b = whole;
        for value in 0..=255u8 {
            if value != whole[at] && (is_in_field(at) || value == 1 || value == 0x80) {
                b[at] = value;
                let fault = fault_of(front, at, value, &b);
                if decode_set(&b).err() != fault {
                    return Some((at, value));
                }
                let why = Some(why_of(fault, are_arranged(front, &b)));
                if is_of_range(at) && judged_spelling(&r, &b) != why {
                    return Some((at, value));
                }
            }
        }
    }
    None
}

fn is_whole(front: Front) -> bool {
    let r = to_block(Kind::Indirect, 0, BLOCK_KEYBITS, 12, 0);
    let whole = bytes_of(front);
    decode_set(&whole).is_ok() && judged_spelling(&r, &whole) == Some(None)
}

#[test]
fn each_changed_byte_of_two_references_is_told_by_the_order(rt: HostRuntime) {
    assert!(rt; is_whole(TWO));
    assert_eq!(rt; first_mismatch(TWO), None);
}

#[test]
fn each_changed_byte_of_an_indirect_reference_is_told_by_the_order(rt: HostRuntime) {
    assert!(rt; is_whole(ONE));
    assert_eq!(rt; first_mismatch(ONE), None);
}
