use super::changed_refs::{Slot, fault_of as ref_fault_of, number, spelling};
use super::judging::{judged_spelling, to_block};
use h2_inode::{InodeFault, decode_inode};
use h2_ref::{Kind, Why};

// Inodes of every kind and body.
#[derive(Clone, Copy, Debug)]
enum Which {
    /// A directory with an indirect block and two entries.
    Directory,
    /// A file of 5 bytes, with 2 links.
    Embedded,
    /// A file of 40,000 bytes in two blocks, with 2 links.
    Blocks,
    /// The PFS 1 with the name `ROOT` and the next inode number 2.
    Pfs,
}

const DIRECTORY_KEYS: u64 = 1 << 63;

// Values for bytes that are tried with a few.
pub const FEW: [u8; 4] = [0, 1, 0x80, 255];

fn refs_of(which: Which) -> [Slot; 4] {
    match which {
        Which::Directory => [
            Slot::Indirect(DIRECTORY_KEYS, 4),
            Slot::Short(DIRECTORY_KEYS + (1 << 32)),
            Slot::Long(DIRECTORY_KEYS + (1 << 48)),
            Slot::Nothing,
        ],
        Which::Embedded => [Slot::Nothing; 4],
        Which::Blocks => [
            Slot::Content(0),
            Slot::Content(0x8000),
            Slot::Nothing,
            Slot::Nothing,
        ],
        Which::Pfs => [
            Slot::Inode(1),
            Slot::Indirect(8, 3),
            Slot::Nothing,
            Slot::Nothing,
        ],
    }
}

// The bytes before the references: kind, body, links, number, size, next, and the length of the name.
fn head_of(which: Which) -> [(usize, u8); 7] {
    match which {
        Which::Directory => [(0, 1), (1, 0), (4, 1), (8, 7), (16, 2), (24, 0), (32, 0)],
        Which::Embedded => [(0, 2), (1, 1), (4, 2), (8, 7), (16, 5), (24, 0), (32, 0)],
        Which::Blocks => [
            (0, 2),
            (1, 0),
            (4, 2),
            (8, 7),
            (16, 0x40),
            (17, 0x9c),
            (32, 0),
        ],
        Which::Pfs => [(0, 3), (1, 0), (4, 1), (8, 7), (16, 0), (24, 2), (32, 4)],
    }
}

fn bytes_of(which: Which) -> [u8; 1024] {
    let mut b = [0; 1024];
    for (i, slot) in refs_of(which).iter().enumerate() {
        for (k, value) in spelling(*slot).iter().enumerate() {
            let at = 512 + 128 * i + k;
            if at < 1024 {
                b[at] = *value;
            }
        }
    }
    for (at, value) in head_of(which) {
        if at < 1024 {
            b[at] = value;
        }
    }
    if matches!(which, Which::Pfs) {
        b[48] = b'R';
        b[49] = b'O';
        b[50] = b'O';
        b[51] = b'T';
    }
    if matches!(which, Which::Embedded) {
        b[512] = b'h';
        b[516] = b'o';
    }
    b
}

fn unless(fits: bool, fault: InodeFault) -> Option<InodeFault> {
    if fits { None } else { Some(fault) }
}

// What another kind finds at fault first in the fields.
fn kind_fault(which: Which, value: u8) -> InodeFault {
    match (which, value) {
        (Which::Directory, 2) => InodeFault::Body,
        (Which::Directory, 3) => InodeFault::Size(2),
        (Which::Embedded, 1 | 3) => InodeFault::Body,
        (Which::Blocks, 1 | 3) => InodeFault::Links(2),
        (Which::Pfs, 1) => InodeFault::Next,
        (Which::Pfs, 2) => InodeFault::Body,
        (_, _) => InodeFault::Kind(value),
    }
}

fn links_fault(which: Which, links: u64) -> Option<InodeFault> {
    let fits = match which {
        Which::Directory | Which::Pfs => links == 1,
        Which::Embedded | Which::Blocks => links <= 65535,
    };
    unless(fits, InodeFault::Links((links % (1 << 32)) as u32))
}

// Another size may ask for another body, be too large, or leave a byte or a reference behind it.
fn size_fault(which: Which, size: u64) -> Option<InodeFault> {
    match which {
        Which::Directory => unless(size <= 4096, InodeFault::Size(size)),
        Which::Pfs => Some(InodeFault::Size(size)),
        Which::Embedded => match size {
            0 => Some(InodeFault::Padding(512)),
            1..=4 => Some(InodeFault::Padding(516)),
            _ => unless(size <= 512, InodeFault::Body),
        },
        Which::Blocks => match size {
            0..=512 => Some(InodeFault::Body),
            513..=0x8000 => Some(InodeFault::Shape),
            _ => unless(size <= 1 << 40, InodeFault::Size(size)),
        },
    }
}

fn next_fault(which: Which, next: u64) -> Option<InodeFault> {
    let fits = matches!(which, Which::Pfs) && 2 <= next && next <= 1 << 62;
    unless(fits, InodeFault::Next)
}

// Another length of the name: a shorter one leaves a letter behind it, a longer one has zeros in it.
fn len_fault(which: Which, len: u64) -> InodeFault {
    match (which, len) {
        (Which::Pfs, 1) => InodeFault::Padding(49),
        (Which::Pfs, 2) => InodeFault::Padding(50),
        (Which::Pfs, 3) => InodeFault::Padding(51),
        (_, _) => InodeFault::Name,
    }
}

fn name_fault(value: u8) -> Option<InodeFault> {
    let good = matches!(value, b'a'..=b'z' | b'A'..=b'Z' | b'0'..=b'9' | b'.' | b'_' | b'-');
    unless(good, InodeFault::Name)
}

// Whether the references, each valid by itself, are a set that the inode may have.
fn are_arranged(which: Which, b: &[u8]) -> bool {
    let (mut low, end) = match which {
        Which::Directory => (DIRECTORY_KEYS, u64::MAX),
        Which::Embedded | Which::Blocks => (0, 40_000),
        Which::Pfs => (0, 1 << 62),
    };
    for (i, slot) in refs_of(which).iter().enumerate() {
        if *slot != Slot::Nothing {
            let at = 512 + 128 * i;
            let key = number(b, at + 8);
            if key < low || key >= end {
                return false;
            }
            let keybits = number(b, at + 2) % 64;
            low = key.saturating_add(1 << keybits);
        }
    }
    true
}

// What is at fault first in the body of which the byte at the place now has the value.
fn body_fault(which: Which, at: usize, value: u8, b: &[u8]) -> Option<InodeFault> {
    if matches!(which, Which::Embedded) {
        return unless(at < 517, InodeFault::Padding((at % 1024) as u16));
    }
    let i = at % 512 / 128;
    let from = 512 + 128 * i;
    let bytes = b.get(from..)?;
    match ref_fault_of(refs_of(which)[i], at % 128, value, bytes) {
        Some(fault) => Some(InodeFault::Reference {
            at: from as u32,
            fault,
        }),
        None => unless(are_arranged(which, b), InodeFault::Shape),
    }
}

// What is at fault first in an inode's bytes of which one, at the place, now has the value.
fn fault_of(which: Which, at: usize, value: u8, b: &[u8]) -> Option<InodeFault> {
    let padding = Some(InodeFault::Padding((at % 1024) as u16));
    let n = number(b, 8);
    match at {
        0 => Some(kind_fault(which, value)),
        1 => Some(InodeFault::Body),
        2..=3 => padding,
        4..=7 => links_fault(which, number(b, 4) % (1 << 32)),
        8..=15 => unless(1 <= n && n < 1 << 62, InodeFault::Number),
        16..=23 => size_fault(which, number(b, 16)),
        24..=31 => next_fault(which, number(b, 24)),
        32..=33 => Some(len_fault(which, number(b, 32) % 65536)),
        48..=51 if matches!(which, Which::Pfs) => name_fault(value),
        34..=511 => padding,
        _ => body_fault(which, at, value, b),
    }
}

// What that is as a fault of the block that a reference to the inode 7 names.
fn why_of(fault: Option<InodeFault>, at: usize) -> Option<Why> {
    match fault {
        Some(InodeFault::Reference { at, fault }) => Some(Why::Reference { at, fault }),
        Some(InodeFault::Shape) => Some(Why::Shape),
        Some(_) => Some(Why::Inode),
        None => {
            if 8 <= at && at < 16 {
                Some(Why::Inode)
            } else {
                None
            }
        }
    }
}

// Whether the byte is tried with every value: it stands in a field, or in one of a reference that isn't its
// check. All others must be zero or may be any, and are tried with a few values.
fn is_tried(at: usize, value: u8) -> bool {
    at < 56 || 512 <= at && at % 128 < 48 || FEW.contains(&value)
}

// The first change for which the decoder or the judge tells another fault than the format.
fn first_mismatch(which: Which) -> Option<(usize, u8)> {
    let r = to_block(Kind::Inode, 7, 0, 10, 0);
    let whole = bytes_of(which);
    for at in 0..1024usize {
        let mut b = whole;
        for value in 0..=255u8 {
            if value != whole[at] && is_tried(at, value) {
                b[at] = value;
                let fault = fault_of(which, at, value, &b);
                if decode_inode(&b).err() != fault {
                    return Some((at, value));
                }
                if FEW.contains(&value) && judged_spelling(&r, &b) != Some(why_of(fault, at)) {
                    return Some((at, value));
                }
            }
        }
    }
    None
}

fn is_whole(which: Which) -> bool {
    let r = to_block(Kind::Inode, 7, 0, 10, 0);
    let whole = bytes_of(which);
    decode_inode(&whole).is_ok() && judged_spelling(&r, &whole) == Some(None)
}

#[test]
fn each_changed_byte_of_a_directory_is_told_by_the_order(rt: HostRuntime) {
    assert!(rt; is_whole(Which::Directory));
    assert_eq!(rt; first_mismatch(Which::Directory), None);
}

#[test]
fn each_changed_byte_of_a_file_in_its_inode_is_told_by_the_order(rt: HostRuntime) {
    assert!(rt; is_whole(Which::Embedded));
    assert_eq!(rt; first_mismatch(Which::Embedded), None);
}

#[test]
fn each_changed_byte_of_a_file_in_blocks_is_told_by_the_order(rt: HostRuntime) {
    assert!(rt; is_whole(Which::Blocks));
    assert_eq!(rt; first_mismatch(Which::Blocks), None);
}

#[test]
fn each_changed_byte_of_a_pfs_is_told_by_the_order(rt: HostRuntime) {
    assert!(rt; is_whole(Which::Pfs));
    assert_eq!(rt; first_mismatch(Which::Pfs), None);
}
