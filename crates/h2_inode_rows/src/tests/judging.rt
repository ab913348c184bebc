use super::{directory, pfs};
use h2_inode::{check_of, judge};
use h2_ref::{Check, Dirent, Kind, Ref, RefFault, Why};

// XXH64 of the blocks below, by the public definition, worked out by another program.
const DIRECTORY_CHECK: u64 = 0x222F_A156_459B_DA72;

const SET_CHECK: u64 = 0x85BF_2A40_D3CB_E053;

const ZEROS_CHECK: u64 = 0x594E_DC66_332C_45EC;

pub const NAME_CHECK: u64 = 0xBC27_61F5_0D83_7ED8;

/// The least key of the name of 65 times `a`.
pub const NAME_KEY: u64 = 0xE276_D6B4_4CD4_0000;

/// A reference to a block of 2^radix bytes at 4 MiB.
pub fn to_block(kind: Kind, key: u64, keybits: u8, radix: u8, check: u64) -> Ref {
    Ref {
        kind,
        key,
        keybits,
        place: 0x40_0000,
        radix,
        id: 1,
        check: Check::Xx(check),
        dirent: None,
    }
}

/// The entry of a file with a name of so many bytes.
pub fn to_name(key: u64, len: u16, check: u64) -> Ref {
    Ref {
        dirent: Some(Dirent {
            number: 7,
            len,
            target: 2,
            name: [0; 64],
        }),
        ..to_block(Kind::Dirent, key, 0, 10, check)
    }
}

/// What is judged of the block; None where that may not be asked.
pub fn judged(r: &Ref, b: &[u8]) -> Option<Option<Why>> {
    if r.kind == Kind::MapNode {
        return None;
    }
    if r.kind == Kind::MapLeaf {
        return None;
    }
    if r.radix == 0 {
        return None;
    }
    if r.radix >= 32 {
        return None;
    }
    if !r.valid() {
        return None;
    }
    if b.len() != r.size() as usize {
        return None;
    }
    Some(judge(r, b))
}

/// What is judged of the spelling: the reference is given the check of the block.
pub fn judged_spelling(r: &Ref, b: &[u8]) -> Option<Option<Why>> {
    let checked = Ref {
        check: check_of(r.kind, b),
        ..*r
    };
    judged(&checked, b)
}

fn bad_kind(at: u32) -> Option<Option<Why>> {
    Some(Some(Why::Reference {
        at,
        fault: RefFault::Kind(9),
    }))
}

#[test]
fn inodes_are_judged(rt: HostRuntime) {
    let r = to_block(Kind::Inode, 7, 0, 10, DIRECTORY_CHECK);
    let mut b = directory();
    assert_eq!(rt; judged(&r, &b), Some(None));
    let other_check = Why::Check {
        want: Check::Xx(ZEROS_CHECK),
        got: Check::Xx(DIRECTORY_CHECK),
    };
    let unlike = to_block(Kind::Inode, 7, 0, 10, ZEROS_CHECK);
    assert_eq!(rt; judged(&unlike, &b), Some(Some(other_check)));
    let other_key = to_block(Kind::Inode, 8, 0, 10, DIRECTORY_CHECK);
    assert_eq!(rt; judged(&other_key, &b), Some(Some(Why::Inode)));
    b[512] = 9;
    assert_eq!(rt; judged_spelling(&r, &b), bad_kind(512));
    b[4] = 2;
    assert_eq!(rt; judged_spelling(&r, &b), Some(Some(Why::Inode)));
    // A directory can't have the PFS's reference to an inode.
    let mut mixed = pfs();
    mixed[0] = 1;
    for at in 8..64usize {
        mixed[at] = 0;
    }
    mixed[8] = 7;
    assert_eq!(rt; judged_spelling(&r, &mixed), Some(Some(Why::Shape)));
}

// An indirect block with one reference: to the inode 1, as the PFS's.
fn indirect() -> [u8; 4096] {
    let mut b = [0; 4096];
    b[0] = 1;
    b[1] = 3;
    b[8] = 1;
    b[16] = 0x0a;
    b[17] = 0x04;
    b[18] = 0x40;
    b[24] = 1;
    b
}

#[test]
fn sets_are_judged(rt: HostRuntime) {
    let r = to_block(Kind::Indirect, 0, 1, 12, SET_CHECK);
    let mut b = indirect();
    assert_eq!(rt; judged(&r, &b), Some(None));
    let behind = to_block(Kind::Indirect, 2, 1, 12, SET_CHECK);
    assert_eq!(rt; judged(&behind, &b), Some(Some(Why::Shape)));
    b[8] = 2;
    assert_eq!(rt; judged_spelling(&r, &b), Some(Some(Why::Shape)));
    assert_eq!(rt; judged_spelling(&behind, &b), Some(None));
    b[128] = 9;
    assert_eq!(rt; judged_spelling(&behind, &b), bad_kind(128));
    let empty = [0; 4096];
    assert_eq!(rt; judged_spelling(&r, &empty), Some(Some(Why::Shape)));
    // An indirect reference with 4 keybits.
    let mut below = indirect();
    below[0] = 2;
    below[2] = 4;
    below[8] = 0;
    below[16] = 0x0c;
    below[17] = 0x10;
    let wider = to_block(Kind::Indirect, 0, 5, 12, 0);
    assert_eq!(rt; judged_spelling(&wider, &below), Some(None));
    let same = to_block(Kind::Indirect, 0, 4, 12, 0);
    assert_eq!(rt; judged_spelling(&same, &below), Some(Some(Why::Shape)));
}

#[test]
fn contents_are_judged_by_their_check(rt: HostRuntime) {
    let r = to_block(Kind::Content, 0, 14, 14, ZEROS_CHECK);
    let b = [0; 16384];
    assert_eq!(rt; judged(&r, &b), Some(None));
    let other_check = Why::Check {
        want: Check::Xx(SET_CHECK),
        got: Check::Xx(ZEROS_CHECK),
    };
    let unlike = to_block(Kind::Content, 0, 14, 14, SET_CHECK);
    assert_eq!(rt; judged(&unlike, &b), Some(Some(other_check)));
}

#[test]
fn names_are_judged(rt: HostRuntime) {
    let mut b = [0; 1024];
    for at in 0..65usize {
        b[at] = b'a';
    }
    assert_eq!(rt; judged(&to_name(NAME_KEY, 65, NAME_CHECK), &b), Some(None));
    let last = NAME_KEY + 32767;
    assert_eq!(rt; judged(&to_name(last, 65, NAME_CHECK), &b), Some(None));
    let bad = Some(Some(Why::Name));
    assert_eq!(rt; judged(&to_name(last + 1, 65, NAME_CHECK), &b), bad);
    assert_eq!(rt; judged(&to_name(NAME_KEY, 66, NAME_CHECK), &b), bad);
    b[1023] = 1;
    assert_eq!(rt; judged_spelling(&to_name(NAME_KEY, 65, 0), &b), bad);
}
