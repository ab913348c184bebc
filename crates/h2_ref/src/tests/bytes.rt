use super::oracle::refusal;
use super::values::samples;
use crate::{RefFault, decode, encode};
use std::test::Fail;

// The bytes of the samples that aren't zero, by the format's tables: the sample, the place and the byte.
const SPELLINGS: [(usize, usize, u8); 78] = [
    // the inode: kind 1, method 3, key 7, place 0x400400 with radix 10, id 5, and the check
    (1, 0, 1),
    (1, 1, 3),
    (1, 8, 7),
    (1, 16, 0x0a),
    (1, 17, 0x04),
    (1, 18, 0x40),
    (1, 24, 5),
    (1, 64, 0x88),
    (1, 65, 0x77),
    (1, 71, 0x11),
    // the indirect block: 62 key bits from key 3 * 2^62 on, place 0x401000 with radix 12
    (2, 0, 2),
    (2, 1, 3),
    (2, 2, 62),
    (2, 15, 0xc0),
    (2, 16, 0x0c),
    (2, 17, 0x10),
    (2, 18, 0x40),
    (2, 24, 5),
    (2, 64, 0x88),
    (2, 65, 0x77),
    (2, 71, 0x11),
    // the content: 14 key bits from key 0x8000 on, place 0x408000 with radix 14
    (3, 0, 3),
    (3, 1, 3),
    (3, 2, 14),
    (3, 9, 0x80),
    (3, 16, 0x0e),
    (3, 17, 0x80),
    (3, 18, 0x40),
    (3, 24, 5),
    (3, 64, 0x88),
    (3, 65, 0x77),
    (3, 71, 0x11),
    // the entry of the file 9 with the name "ab": the flag, its key, no block, its number, length and target
    (4, 0, 4),
    (4, 3, 1),
    (4, 10, 1),
    (4, 15, 0x80),
    (4, 24, 5),
    (4, 32, 9),
    (4, 40, 2),
    (4, 42, 2),
    (4, 64, 0x61),
    (4, 65, 0x62),
    // the entry of the directory 10 with a name of 255 bytes in a block
    (5, 0, 4),
    (5, 1, 3),
    (5, 10, 1),
    (5, 15, 0x80),
    (5, 16, 0x0a),
    (5, 17, 0x04),
    (5, 18, 0x40),
    (5, 24, 5),
    (5, 32, 10),
    (5, 40, 255),
    (5, 42, 1),
    (5, 64, 0x88),
    (5, 65, 0x77),
    (5, 71, 0x11),
    // the node of the freemap: 28 key bits from key 2^32 on, in the copy 1
    (6, 0, 5),
    (6, 1, 5),
    (6, 2, 28),
    (6, 12, 1),
    (6, 16, 0x0a),
    (6, 17, 0x44),
    (6, 18, 0x01),
    (6, 20, 1),
    (6, 24, 5),
    (6, 64, 0xdd),
    (6, 67, 0xaa),
    // the leaf of zone 3: 25 key bits, in the copy 1
    (7, 0, 6),
    (7, 1, 5),
    (7, 2, 25),
    (7, 11, 6),
    (7, 16, 0x0a),
    (7, 17, 0x40),
    (7, 18, 0x01),
    (7, 19, 0x06),
    (7, 24, 5),
    (7, 64, 0xdd),
    (7, 67, 0xaa),
];

// The bytes of a sample.
fn spelling(sample: usize) -> [u8; 128] {
    let mut bytes = [0; 128];
    for (of, at, value) in SPELLINGS {
        if of == sample && at < 128 {
            bytes[at] = value;
        }
    }
    bytes
}

#[test]
fn samples_are_spelled_both_ways(rt: HostRuntime) -> Result<(), Fail> {
    for (i, r) in samples().iter().enumerate() {
        let bytes = spelling(i);
        assert!(rt; r.valid());
        assert_eq!(rt; encode(r).as_slice(), bytes.as_slice(), "sample {i}");
        assert_eq!(rt; decode(&bytes), Ok(*r), "sample {i}");
    }
    Ok(())
}

// Bytes of zeros with one or two changed, and what they are refused for.
const ZEROS: [([(usize, u8); 2], Option<RefFault>); 7] = [
    ([(0, 0), (0, 0)], None),
    ([(0, 7), (1, 0)], Some(RefFault::Kind(7))),
    ([(0, 0), (1, 32)], Some(RefFault::Method(32))),
    ([(0, 1), (1, 19)], Some(RefFault::Method(19))),
    ([(3, 2), (4, 0)], Some(RefFault::Padding(3))),
    ([(127, 1), (4, 0)], Some(RefFault::Padding(127))),
    ([(127, 1), (4, 1)], Some(RefFault::Padding(4))),
];

#[test]
fn changed_zeros_are_refused(rt: HostRuntime) -> Result<(), Fail> {
    for (changes, expected) in ZEROS {
        let mut bytes = [0; 128];
        for (at, value) in changes {
            assert!(rt; at < 128);
            bytes[at] = value;
        }
        assert_eq!(rt; decode(&bytes).err(), expected);
    }
    Ok(())
}

// Bytes of a sample with one changed, and what they are refused for: rows by hand, where the order shows.
const CHANGED: [(usize, usize, u8, Option<RefFault>); 25] = [
    (1, 0, 2, Some(RefFault::Radix(10))),
    (1, 0, 4, Some(RefFault::Key)),
    (1, 0, 5, Some(RefFault::Method(3))),
    (1, 0, 0, Some(RefFault::Method(3))),
    (1, 1, 4, Some(RefFault::Method(4))),
    (1, 2, 1, Some(RefFault::Key)),
    (1, 3, 1, Some(RefFault::Padding(3))),
    (1, 5, 9, Some(RefFault::Padding(5))),
    (1, 8, 0, Some(RefFault::Key)),
    (1, 8, 8, None),
    (1, 16, 0x4a, Some(RefFault::Place(0x40_0440))),
    (1, 20, 4, Some(RefFault::Place(0x4_0040_0400))),
    (1, 24, 0, Some(RefFault::Id)),
    (1, 32, 1, Some(RefFault::Padding(32))),
    (1, 72, 1, Some(RefFault::Padding(72))),
    (2, 2, 63, Some(RefFault::Key)),
    (4, 1, 3, Some(RefFault::Padding(3))),
    (4, 40, 1, Some(RefFault::Padding(65))),
    (4, 40, 65, Some(RefFault::Dirent)),
    (4, 42, 3, Some(RefFault::Dirent)),
    (5, 40, 64, Some(RefFault::Dirent)),
    (5, 43, 1, Some(RefFault::Padding(43))),
    (6, 2, 29, Some(RefFault::Key)),
    (6, 2, 31, None),
    (7, 68, 1, Some(RefFault::Padding(68))),
];

#[test]
fn changed_samples_are_refused_by_the_order(rt: HostRuntime) -> Result<(), Fail> {
    for (sample, at, value, expected) in CHANGED {
        let mut bytes = spelling(sample);
        assert!(rt; at < 128);
        bytes[at] = value;
        assert_eq!(rt; decode(&bytes).err(), expected, "byte {at} of {sample}");
    }
    Ok(())
}

#[test]
fn each_changed_byte_is_refused_by_the_order(rt: HostRuntime) -> Result<(), Fail> {
    for sample in 0..8usize {
        for at in 0..128usize {
            let mut bytes = spelling(sample);
            for value in 0..=255u8 {
                bytes[at] = value;
                assert_eq!(rt;
                    decode(&bytes).err(),
                    refusal(&bytes),
                    "byte {at} of {sample} is {value}"
                );
            }
        }
    }
    Ok(())
}
