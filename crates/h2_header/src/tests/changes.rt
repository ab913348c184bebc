use super::by_hand::block;
use crate::*;
use h2_check::crc32c;
use h2_num::{get32, get64, put32};
use std::test::Fail;

// Whether these bytes from a place up to another are zeros.
fn are_zeros(b: &[u8], from: usize, to: usize) -> bool {
    let mut zeros = true;
    for at in from..to {
        if at < b.len() && b[at] != 0 {
            zeros = false;
        }
    }
    zeros
}

/// Whether the first reference of the super-root is one to an inode, by the format's table: its kind, method,
/// keybits and flags, the key, the place and radix, the id, any check, and zeros.
fn is_inode_ref(b: &[u8]) -> bool {
    if b.len() != 65536 {
        return false;
    }
    let key = get64(b, 520);
    let place = get64(b, 528);
    let id = get64(b, 536);
    get64(b, 512) == 0x0301
        && key >= 1
        && key < 1 << 62
        && place % 1024 == 10
        && place > 10
        && place < 1 << 34
        && id >= 1
        && id <= 1 << 62
        && are_zeros(b, 544, 576)
        && are_zeros(b, 584, 640)
}

/// What a block with right magic, version and check is refused for, if one byte of it was changed. The block
/// is that of the header of checkpoint 6 with 5 zones, whose second PFS has the key 3. The rules that a
/// single changed byte can break are told by its place.
fn field_refusal(b: &[u8], at: usize) -> Option<HeadFault> {
    if b.len() != 65536 {
        return None;
    }
    if at >= 65536 {
        return None;
    }
    let wrong = match at {
        12..16 => match get32(b, 12) {
            5 => None,
            4 => Some(1024 + 4 * 128),
            6..=8 => Some(1024 + 5 * 128),
            9..=512 => Some(1024),
            _ => Some(12),
        },
        16..24 => {
            let number = get64(b, 16);
            if number >= 1 && number <= 1 << 62 && number % 4 == 2 {
                if number == 6 { None } else { Some(24) }
            } else {
                Some(16)
            }
        }
        24..32 => if get64(b, 24) == 6 { None } else { Some(24) },
        32..40 => {
            let next = get64(b, 32);
            if next >= 2 && next <= 1 << 62 {
                None
            } else {
                Some(32)
            }
        }
        512..640 => if !is_inode_ref(b) {
            Some(512)
        } else if get64(b, 520) >= 3 {
            Some(640)
        } else {
            None
        },
        _ => if b[at] == 0 { None } else { Some(at as u32) },
    };
    match wrong {
        Some(place) => Some(HeadFault::Field(place)),
        None => None,
    }
}

// The CRC-32C of the first 65532 bytes, as the block has it.
const CHECK: u32 = 0x96e8_d85d;

// The register of CRC-32C, from zero, after a zero byte more.
fn after_zero(register: u32) -> u32 {
    let mut r = register;
    for _ in 0..8u32 {
        r = if r & 1 == 1 {
            r >> 1 ^ 0x82f6_3b78
        } else {
            r >> 1
        };
    }
    r
}

// How the check changes where a bit of a byte does, for each of its eight bits: it changes by the same, whatever
// the other bytes are, and where several bits change by all of theirs.
#[derive(Clone, Copy)]
struct CheckChange {
    of_bits: [u32; 8],
}

impl CheckChange {
    // For the last byte that the check covers.
    fn of_the_last() -> CheckChange {
        CheckChange {
            of_bits: [1, 2, 4, 8, 16, 32, 64, 128],
        }
        .one_before()
    }

    // For the byte before.
    fn one_before(self) -> CheckChange {
        let [a, b, c, d, e, f, g, h] = self.of_bits;
        CheckChange {
            of_bits: [
                after_zero(a),
                after_zero(b),
                after_zero(c),
                after_zero(d),
                after_zero(e),
                after_zero(f),
                after_zero(g),
                after_zero(h),
            ],
        }
    }

    // For the byte at a place below 65532.
    fn of_byte(at: usize) -> CheckChange {
        let mut change = CheckChange::of_the_last();
        for _ in at..65531 {
            change = change.one_before();
        }
        change
    }

    // Where these bits of the byte change.
    fn by(self, bits: u8) -> u32 {
        let mut change = 0;
        let mut left = bits;
        for of_bit in self.of_bits {
            if left & 1 == 1 {
                change ^= of_bit;
            }
            left >>= 1;
        }
        change
    }
}

// Whether the block, with these bits of a byte changed, is refused for what comes before the fields.
fn is_refused_early(b: &mut [u8], at: usize, bits: u8, change: u32) -> bool {
    if b.len() != 65536 {
        return false;
    }
    if at >= 65536 {
        return false;
    }
    b[at] ^= bits;
    let expected = match at {
        0..8 => HeadFault::Magic,
        8..12 => HeadFault::Version(get32(b, 8)),
        12..65532 => HeadFault::Check {
            want: CHECK,
            got: CHECK ^ change,
        },
        _ => HeadFault::Check {
            want: get32(b, 65532),
            got: CHECK,
        },
    };
    let read = read_from(b, 1);
    b[at] ^= bits;
    read == Err(expected)
}

// Whether it is refused for the field, or read, if its check is made anew.
fn is_refused_by_field(b: &mut [u8], at: usize, bits: u8, change: u32) -> bool {
    if b.len() != 65536 {
        return false;
    }
    if at >= 65536 {
        return false;
    }
    b[at] ^= bits;
    put32(b, 65532, CHECK ^ change);
    let read = read_from(b, 1).err();
    let expected = field_refusal(b, at);
    if at < b.len() {
        b[at] ^= bits;
    }
    read == expected
}

#[test]
fn the_first_bytes_are_covered(rt: HostRuntime) -> Result<(), Fail> {
    let mut b = block(rt.alloc())?;
    let mut change = CheckChange::of_byte(600);
    for step in 0..600usize {
        change = change.one_before();
        let at = 599 - step;
        for bits in 1..=255u8 {
            assert!(rt;
                is_refused_early(&mut b, at, bits, change.by(bits)),
                "byte {at}, bits {bits}"
            );
        }
    }
    Ok(())
}

#[test]
fn the_last_bytes_are_covered(rt: HostRuntime) -> Result<(), Fail> {
    let mut b = block(rt.alloc())?;
    let mut change = CheckChange::of_the_last();
    for step in 0..600usize {
        let at = 65535 - step;
        if at < 65531 {
            change = change.one_before();
        }
        for bits in 1..=255u8 {
            assert!(rt;
                is_refused_early(&mut b, at, bits, change.by(bits)),
                "byte {at}, bits {bits}"
            );
        }
    }
    Ok(())
}

#[test]
fn the_first_fields_are_named(rt: HostRuntime) -> Result<(), Fail> {
    let mut b = block(rt.alloc())?;
    let mut change = CheckChange::of_byte(600);
    for step in 0..588usize {
        change = change.one_before();
        let at = 599 - step;
        for bits in 1..=255u8 {
            assert!(rt;
                is_refused_by_field(&mut b, at, bits, change.by(bits)),
                "byte {at}, bits {bits}"
            );
        }
    }
    Ok(())
}

#[test]
fn the_last_fields_are_named(rt: HostRuntime) -> Result<(), Fail> {
    let mut b = block(rt.alloc())?;
    let mut change = CheckChange::of_the_last();
    for step in 0..596usize {
        let at = 65531 - step;
        if step > 0 {
            change = change.one_before();
        }
        for bits in 1..=255u8 {
            assert!(rt;
                is_refused_by_field(&mut b, at, bits, change.by(bits)),
                "byte {at}, bits {bits}"
            );
        }
    }
    Ok(())
}

// Bytes of the block that are changed, one or two, and the wrong field that is named.
const CHANGES: [([(usize, u8); 2], Option<u32>); 21] = [
    // zones: of four the map has one leaf too many, of six one too few; nine have nodes
    ([(12, 4), (13, 0)], Some(1024 + 4 * 128)),
    ([(12, 6), (13, 0)], Some(1024 + 5 * 128)),
    ([(12, 9), (13, 0)], Some(1024)),
    ([(12, 3), (13, 0)], Some(12)),
    ([(12, 1), (13, 2)], Some(12)),
    // the number: another slot's, too high, or one whose map is another's
    ([(16, 7), (24, 7)], Some(16)),
    ([(16, 0), (24, 0)], Some(16)),
    ([(23, 0x40), (31, 0x40)], Some(16)),
    ([(16, 10), (17, 0)], Some(24)),
    ([(16, 10), (24, 10)], Some(1024)),
    // the next PFS
    ([(32, 0), (39, 0x40)], None),
    ([(32, 1), (39, 0x40)], Some(32)),
    ([(32, 1), (24, 7)], Some(24)),
    ([(100, 1), (32, 0)], Some(32)),
    // the gaps
    ([(2048, 1), (100, 1)], Some(100)),
    ([(2048, 1), (1024, 0)], Some(1024)),
    // the super-root: another key, keys out of order or the same, and one that is too high
    ([(520, 2), (521, 0)], None),
    ([(520, 4), (2048, 1)], Some(640)),
    ([(520, 3), (2048, 1)], Some(640)),
    ([(655, 0x40), (2048, 1)], Some(640)),
    ([(527, 0x40), (640, 9)], Some(512)),
];

#[test]
fn the_least_wrong_field_is_named(rt: HostRuntime) -> Result<(), Fail> {
    for (changes, expected) in CHANGES {
        let mut b = block(rt.alloc())?;
        for (at, value) in changes {
            assert!(rt; at < b.len());
            b[at] = value;
        }
        assert_eq!(rt; b.len(), HEADER_BYTES);
        let made = crc32c(b.split_at(65532).0);
        put32(&mut b, 65532, made);
        assert_eq!(rt; b.len(), HEADER_BYTES);
        let fault = match expected {
            Some(place) => Some(HeadFault::Field(place)),
            None => None,
        };
        assert_eq!(rt; read_from(&b, 1).err(), fault);
    }
    Ok(())
}
