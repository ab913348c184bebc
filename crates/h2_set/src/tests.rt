use crate::{SetFault, decode_set, encode_set};
use h2_ref::{Check, Kind, Ref, RefFault, encode};
use std::test::Fail;

// The reference of an inode with a key.
fn inode(key: u64) -> Ref {
    Ref {
        kind: Kind::Inode,
        key,
        keybits: 0,
        place: 0x40_0400,
        radix: 10,
        id: 5,
        check: Check::Xx(7),
        dirent: None,
    }
}

// The bytes of four references of inodes with these keys; a key of 0 stands for an empty one.
fn block(keys: [u64; 4]) -> [u8; 512] {
    let mut bytes = [0; 512];
    for (i, key) in keys.iter().enumerate() {
        let r = inode(*key);
        if r.valid() {
            for (j, byte) in encode(&r).iter().enumerate() {
                let at = 128 * i + j;
                if at < 512 {
                    bytes[at] = *byte;
                }
            }
        }
    }
    bytes
}

// Keys, and how many references the set has, or None where they are out of order.
const KEYS: [([u64; 4], Option<usize>); 7] = [
    ([0, 0, 0, 0], Some(0)),
    ([3, 0, 0, 0], Some(1)),
    ([3, 5, 0, 0], Some(2)),
    ([1, 2, 3, 4], Some(4)),
    ([5, 3, 0, 0], None),
    ([3, 3, 0, 0], None),
    ([3, 0, 5, 0], None),
];

#[test]
fn sets_are_read_and_written(rt: HostRuntime) -> Result<(), Fail> {
    for (keys, len) in KEYS {
        let bytes = block(keys);
        match (decode_set(&bytes), len) {
            (Ok(set), Some(len)) => {
                assert_eq!(rt; set.len(), len);
                assert_eq!(rt; set.capacity(), 4);
                assert_eq!(rt; set.is_full(), len == 4);
                assert_eq!(rt; set.find(3).is_some(), keys[0] == 3 || keys[2] == 3);
                let mut out = [9; 512];
                encode_set(&set, &mut out);
                assert_eq!(rt; out.as_slice(), bytes.as_slice());
            }
            (Err(fault), None) => assert_eq!(rt; fault, SetFault::Shape),
            (Ok(set), None) => assert_eq!(rt; set.len(), 9, "out of order"),
            (Err(fault), Some(_)) => assert_eq!(rt; fault, SetFault::Shape, "in order"),
        }
    }
    Ok(())
}

#[test]
fn the_first_fault_is_told(rt: HostRuntime) -> Result<(), Fail> {
    let mut bytes = block([3, 5, 0, 0]);
    bytes[128] = 7;
    bytes[256] = 8;
    let fault = SetFault::Reference {
        at: 128,
        fault: RefFault::Kind(7),
    };
    assert_eq!(rt; decode_set(&bytes).err(), Some(fault));
    Ok(())
}
