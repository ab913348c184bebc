//! Writing and reading volume headers.
ghost use Rattle.std.specs.Prelude.{◌≡◌, length};
ghost use Rattle.h2_header.specs.Header.{IsHeader};

use crate::references::number_of;
use crate::samples::{inode_ref, join, put_ref};
use h2_check::crc32c;
use h2_header::{HEADER_BYTES, Header, read_from, write_into};
use h2_num::{get32, get64, put_bytes, put32, put64};
use h2_ref::{Check, Kind, Ref};
use std::alloc::{AllocError, Global};

/// The number of the sample, and the slot whose turn it is.
const NUMBER: u64 = 6;

const SLOT: u32 = 1;

/// The zones of the sample.
const ZONES: u8 = 8;

const ZONE_BYTES: u64 = 33_554_432;

/// Where a leaf lies in its zone, in the copy of the sample's freemap.
const LEAF_AT: u64 = 65_536 + 16_384;

/// The place of the check in the block.
const CHECK_AT: usize = 65_532;

/// The reference to the leaf of a zone.
fn leaf_ref(zone: u8) -> Ref {
    let key = ZONE_BYTES * zone as u64;
    Ref {
        kind: Kind::MapLeaf,
        key,
        keybits: 25,
        place: key + LEAF_AT,
        radix: 10,
        id: NUMBER,
        check: Check::Crc(0xa0b0_c0d0 + zone as u32),
        dirent: None,
    }
}

/// Puts the numbers of the sample.
fn put_numbers(b: &mut [u8])
    requires { length b.old ≡ 65536 }
{
    put_bytes(b, 0, b"H2VOLUME");
    put32(b, 8, 1);
    put32(b, 12, ZONES as u32);
    put64(b, 16, NUMBER);
    put64(b, 24, NUMBER);
    put64(b, 32, 4);
}

/// Puts the references of the sample: two PFSs, and the leaves of all zones.
fn put_refs(b: &mut [u8])
    requires { length b.old ≡ 65536 }
{
    put_ref(b, 512, &inode_ref(0));
    put_ref(b, 640, &inode_ref(2));
    for zone in 0..ZONES {
        if b.len() == HEADER_BYTES && zone < 8 {
            put_ref(b, 1024 + 128 * zone as usize, &leaf_ref(zone));
        }
    }
}

/// The block of the sample.
pub fn block(alloc: Global) -> Result<Vec<u8>, AllocError> {
    let mut b = vec![in alloc; 0u8; HEADER_BYTES]?;
    if b.len() == HEADER_BYTES {
        put_numbers(&mut b);
    }
    if b.len() == HEADER_BYTES {
        put_refs(&mut b);
    }
    if b.len() == HEADER_BYTES {
        let check = crc32c(b.split_at(CHECK_AT).0);
        put32(&mut b, CHECK_AT, check);
    }
    Ok(b)
}

/// Writes the header, and joins its check and a word of its block to a number that says which.
pub fn write(h: &Header, out: &mut [u8], start: u64) -> u64
    requires size { length out.old ≡ 65536 }
    requires valid { IsHeader h.now }
{
    write_into(h, out);
    let word = get64(out, 8 * (start % 256) as usize);
    join(start, word ^ get32(out, CHECK_AT) as u64)
}

/// Reads the header in a block, and joins what it says to a number.
pub fn read(b: &[u8], start: u64) -> u64
    requires { length b.now ≡ 65536 }
{
    let number = match read_from(b, SLOT) {
        Ok(h) => h.number ^ h.next_pfs ^ number_of(&h.root[1]) ^ number_of(&h.map[7]),
        Err(_) => 1,
    };
    join(start, number)
}

/// Writes the header that stands in a block so many times over, and joins what it wrote; 0 where there is none.
pub fn write_all(b: &[u8], out: &mut [u8], passes: u32) -> u64 {
    if b.len() != HEADER_BYTES {
        return 0;
    }
    let Ok(h) = read_from(b, SLOT) else {
        return 0;
    };
    let mut joined = 0;
    for _ in 0..passes {
        if out.len() == HEADER_BYTES {
            joined = write(&h, out, joined);
        }
    }
    joined
}

/// Reads the header in a block so many times, and joins what it says; 0 where the block has another size.
pub fn read_all(b: &[u8], passes: u32) -> u64 {
    if b.len() != HEADER_BYTES {
        return 0;
    }
    let mut joined = 0;
    for _ in 0..passes {
        joined = read(b, joined);
    }
    joined
}
