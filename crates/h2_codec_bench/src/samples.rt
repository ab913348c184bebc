//! References that look like those of a volume.
ghost use Rattle.std.specs.Prelude.{◌+◌, ◌*◌, ◌≤◌, length};

use h2_num::put_bytes;
use h2_ref::{Check, Dirent, Kind, Ref, encode};

/// Where blocks of files and directories may begin.
const FIRST_PLACE: u64 = 4_194_304;

/// The bytes of a block of contents, of which each other block's are a part.
const CONTENT_BYTES: u64 = 16_384;

/// The least key of a directory's entries.
const ENTRY_KEYS: u64 = 1 << 63;

/// How many keys entries lie apart.
const ENTRY_STEP: u64 = 65_536;

/// The base-2 logarithm of the keys of an indirect block.
const INDIRECT_KEYBITS: u8 = 20;

/// An odd number whose multiples look like chance: 2^64 over the golden ratio.
const SPREAD: u64 = 0x9e37_79b9_7f4a_7c15;

/// A number that looks like a check.
fn check_number(i: u8) -> u64 {
    (i as u64 + 1).wrapping_mul(SPREAD)
}

/// Joins a word to those before it, so that each of them tells in the result.
pub fn join(joined: u64, word: u64) -> u64 {
    joined.rotate_left(5).wrapping_mul(SPREAD) ^ word
}

/// The reference to the block of a file or a directory.
fn block_ref(kind: Kind, radix: u8, i: u8) -> Ref {
    Ref {
        kind,
        key: 1 + i as u64,
        keybits: 0,
        place: FIRST_PLACE + CONTENT_BYTES * i as u64,
        radix,
        id: 1 + i as u64,
        check: Check::Xx(check_number(i)),
        dirent: None,
    }
}

/// A reference to the inode `1 + i`.
pub fn inode_ref(i: u8) -> Ref {
    block_ref(Kind::Inode, 10, i)
}

/// A reference to part `i` of a file.
pub fn content_ref(i: u8) -> Ref {
    Ref {
        key: CONTENT_BYTES * i as u64,
        keybits: 14,
        ..block_ref(Kind::Content, 14, i)
    }
}

/// A reference to an indirect block.
pub fn indirect_ref(i: u8) -> Ref {
    Ref {
        key: (1 << INDIRECT_KEYBITS) * i as u64,
        keybits: INDIRECT_KEYBITS,
        ..block_ref(Kind::Indirect, 12, i)
    }
}

/// An entry for a file, with its name.
pub fn short_entry(i: u8) -> Ref {
    let mut name = [0; 64];
    put_bytes(&mut name, 0, b"_read_me_first.txt");
    name[0] = b'a' + i % 26;
    Ref {
        key: ENTRY_KEYS + ENTRY_STEP * i as u64,
        place: 0,
        check: Check::Nothing,
        dirent: Some(Dirent {
            number: 1 + i as u64,
            len: 18,
            target: 2,
            name,
        }),
        ..block_ref(Kind::Dirent, 0, i)
    }
}

/// An entry for a directory, whose name has a block.
pub fn long_entry(i: u8) -> Ref {
    Ref {
        key: ENTRY_KEYS + ENTRY_STEP * i as u64,
        dirent: Some(Dirent {
            number: 1 + i as u64,
            len: 255,
            target: 1,
            name: [0; 64],
        }),
        ..block_ref(Kind::Dirent, 10, i)
    }
}

/// Puts the bytes of a reference at a place, where it is valid.
pub fn put_ref(b: &mut [u8], at: usize, r: &Ref)
    requires { at + 128 ≤ length b.old }
{
    if !r.valid() {
        return;
    }
    put_bytes(b, at, &encode(r));
}
