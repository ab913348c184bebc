ghost use Rattle.std.specs.Prelude.{◌≡◌, ◌⊎◌, ◌<◌, length};

use crate::conditions::{are_aligned, are_one_class};
use crate::split::least_range;
use crate::{PutAnswer, Set};
use h2_ref::{Check, Kind, Ref};
use std::test::Fail;

// A leaf with a range of this length.
fn leaf(key: u64, keybits: u8) -> Ref
    ensures key { result.key ≡ key }
    ensures bits { result.keybits ≡ keybits }
{
    Ref {
        kind: Kind::Inode,
        key,
        keybits,
        place: 0x40_0400,
        radix: 10,
        id: 5,
        check: Check::Xx(7),
        dirent: None,
    }
}

// A set with leaves of these keys; those that it doesn't take are left out.
fn set_of(capacity: u8, keys: &[u64], keybits: u8) -> Set
    requires { (capacity ≡ 4) ⊎ (capacity ≡ 32) }
{
    let mut set = Set::new(capacity);
    for key in keys {
        let r = leaf(*key, keybits);
        if set.takes(&r) {
            let _ = set.put(r);
        }
    }
    set
}

// Keys that ascend by one, from 0 on.
const FIRST_32: [u64; 32] = [
    0, 1, 2, 3, 4, 5, 6, 7, 8, 9, 10, 11, 12, 13, 14, 15, 16, 17, 18, 19, 20, 21, 22, 23, 24, 25,
    26, 27, 28, 29, 30, 31,
];

const HIGH: u64 = 1 << 63;

// Four keys of a full set, the keybits of all, the key that it receives, the key and keybits of the split's range, how
// many references it moves, and how many stay; what is left over is the one that was received.
const SPLITS: [([u64; 4], u8, u64, u64, u8, usize, usize); 7] = [
    ([0, 1, 2, 3], 0, 4, 0, 2, 4, 0),
    ([0, 8, 9, 10], 0, 11, 8, 2, 4, 1),
    ([0, 1, 2, 8], 0, 9, 0, 2, 3, 1),
    // Low keys that are far apart: three lie below 2^41.
    ([1, 1 << 20, 1 << 40, 1 << 50], 0, 1 << 61, 0, 41, 3, 1),
    // High keys: three lie in the upper quarter of all keys.
    (
        [HIGH, HIGH + 1, HIGH + (1 << 62), HIGH + (HIGH - 2)],
        0,
        HIGH + (HIGH - 1),
        HIGH + (1 << 62),
        62,
        3,
        2,
    ),
    // Contents of 16 KiB each.
    ([0, 16384, 32768, 49152], 14, 65536, 0, 16, 4, 0),
    ([0, 32768, 65536, 98304], 14, 16384, 0, 16, 3, 2),
];

#[test]
fn full_sets_are_split(rt: HostRuntime) -> Result<(), Fail> {
    for (keys, keybits, received, key, range_bits, moved, stay) in SPLITS {
        let mut set = set_of(4, &keys, keybits);
        let r = leaf(received, keybits);
        assert_eq!(rt; set.len(), 4);
        let may = set.splits(&r);
        assert!(rt; may, "the split of a full set is refused");
        if may {
            let split = set.split(r);
            assert_eq!(rt; split.key, key);
            assert_eq!(rt; split.keybits, range_bits);
            assert_eq!(rt; split.moved.len(), moved);
            assert_eq!(rt; split.moved.capacity(), 32);
            assert_eq!(rt; set.len(), stay);
            assert_eq!(rt; split.rest.is_some(), moved + stay == 4);
        }
    }
    Ok(())
}

#[test]
fn a_set_of_32_is_split(rt: HostRuntime) -> Result<(), Fail> {
    let mut set = set_of(32, &FIRST_32, 0);
    let r = leaf(32, 0);
    assert_eq!(rt; set.len(), 32);
    let may = set.splits(&r);
    assert!(rt; may, "the split of a full set is refused");
    if may {
        let split = set.split(r);
        assert_eq!(rt; split.key, 0);
        assert_eq!(rt; split.keybits, 5);
        assert_eq!(rt; split.moved.len(), 32);
        assert_eq!(rt; set.len(), 0);
        assert_eq!(rt; split.rest, Some(r));
    }
    Ok(())
}

// Of six references, three lie in each of two ranges of one length. (Of five or 33, as a full set has with one more, no
// two disjoint ranges hold half.)
#[test]
fn the_lowest_of_two_ranges_is_taken(rt: HostRuntime) -> Result<(), Fail> {
    let all = [
        leaf(0, 0),
        leaf(1, 0),
        leaf(2, 0),
        leaf(4, 0),
        leaf(5, 0),
        leaf(6, 0),
    ];
    assert!(rt; are_aligned(&all));
    if are_aligned(&all) {
        assert!(rt; are_one_class(&all));
        if are_one_class(&all) {
            let (key, keybits) = least_range(&all);
            assert_eq!(rt; key, 0);
            assert_eq!(rt; keybits, 2);
        }
    }
    Ok(())
}

// Key and keybits of a reference, and whether a set with the keys 16, 17 and 32 to 35 takes it.
const TAKEN: [(u64, u8, bool); 8] = [
    (18, 0, true),
    (17, 0, false),
    (0, 4, true),
    (0, 5, false),
    (33, 0, false),
    (36, 2, true),
    (u64::MAX, 0, true),
    (u64::MAX, 1, false),
];

#[test]
fn what_a_set_takes_is_told(rt: HostRuntime) -> Result<(), Fail> {
    let mut set = set_of(4, &[16, 17], 0);
    let long = leaf(32, 2);
    assert!(rt; set.takes(&long));
    if set.takes(&long) {
        assert_eq!(rt; set.put(long), PutAnswer::Placed);
    }
    for (key, keybits, takes) in TAKEN {
        assert_eq!(rt; set.takes(&leaf(key, keybits)), takes);
    }
    Ok(())
}

// Keys of a full set, a key that it receives, and whether it may be split for it.
const MAY_SPLIT: [([u64; 4], u64, bool); 5] = [
    ([0, 1, 2, 3], 4, true),
    ([0, 1, 2, 3], 3, false),
    ([0, 1, 2, 3], 1 << 62, false),
    ([0, 1, 2, 3], HIGH, false),
    ([HIGH, HIGH + 1, HIGH + 2, HIGH + 3], HIGH + 9, true),
];

#[test]
fn what_a_set_is_split_for_is_told(rt: HostRuntime) -> Result<(), Fail> {
    for (keys, received, may) in MAY_SPLIT {
        let set = set_of(4, &keys, 0);
        assert_eq!(rt; set.splits(&leaf(received, 0)), may);
    }
    // A set that isn't full, and a key that isn't a multiple of its range's length.
    assert!(rt; !set_of(4, &[0, 1, 2], 0).splits(&leaf(4, 0)));
    assert!(rt; !set_of(4, &[0, 4, 8, 12], 0).splits(&leaf(17, 1)));
    Ok(())
}

// Swaps the reference at a place for one with another id, and answers the id that it had.
fn with_id(set: &mut Set, i: usize, id: u64) -> u64
    requires { i < length set.old.refs }
{
    let mut other = *set.at(i);
    other.id = id;
    set.swap(i, other).id
}

#[test]
fn references_are_put_swapped_and_cut(rt: HostRuntime) -> Result<(), Fail> {
    let mut set = set_of(4, &[5, 3, 9], 0);
    assert_eq!(rt; set.len(), 3);
    let first = leaf(1, 0);
    if set.takes(&first) {
        assert_eq!(rt; set.put(first), PutAnswer::Placed);
    }
    let last = leaf(7, 0);
    if set.takes(&last) {
        assert_eq!(rt; set.put(last), PutAnswer::Full);
    }
    assert_eq!(rt; set.find(5), Some(2));
    assert_eq!(rt; set.find(7), None);
    let copy = set.copy();
    if set.len() == 4 {
        assert_eq!(rt; with_id(&mut set, 2, 6), 5);
    }
    if set.len() == 4 {
        assert_eq!(rt; set.cut(0).key, 1);
    }
    assert_eq!(rt; set.len(), 3);
    assert_eq!(rt; set.find(5), Some(1));
    if set.len() == 3 {
        assert_eq!(rt; set.at(1).id, 6);
    }
    assert_eq!(rt; copy.len(), 4);
    assert_eq!(rt; copy.find(1), Some(0));
    Ok(())
}
