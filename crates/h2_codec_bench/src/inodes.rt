//! Encoding and decoding inodes with references in their bodies.
ghost use Rattle.std.specs.Prelude.{All, IfOk, IfSome, OnOk};
ghost use Rattle.h2_inode.specs.Inode.{IsInode};

use crate::references::number_of;
use crate::samples::{content_ref, inode_ref, join, long_entry, put_ref, short_entry};
use h2_inode::{Body, INODE_BYTES, Inode, decode_inode, encode_inode};
use h2_num::{get64, put_bytes, put8, put16, put32, put64};
use h2_ref::Ref;
use std::alloc::{AllocError, Global};

/// How many inodes the samples are.
pub const INODES: u8 = 12;

/// The size of the files, whose contents are in blocks.
const FILE_BYTES: u64 = 1 << 39;

/// The block of a kind, by its number, with four references and zeros for all that may be zero.
fn block_of(kind: u8, number: u64, refs: &[Ref; 4]) -> [u8; INODE_BYTES] {
    let mut b = [0; INODE_BYTES];
    put8(&mut b, 0, kind);
    put32(&mut b, 4, 1);
    put64(&mut b, 8, number);
    put_ref(&mut b, 512, &refs[0]);
    put_ref(&mut b, 640, &refs[1]);
    put_ref(&mut b, 768, &refs[2]);
    put_ref(&mut b, 896, &refs[3]);
    b
}

/// The block of sample number `i`: in turn a directory, a file and a PFS.
fn block(i: u8) -> [u8; INODE_BYTES] {
    let first = i % 32 * 4;
    match i % 3 {
        0 => {
            let refs = [
                short_entry(first),
                long_entry(first + 1),
                short_entry(first + 2),
                long_entry(first + 3),
            ];
            let mut b = block_of(1, 1 + i as u64, &refs);
            put64(&mut b, 16, 4);
            b
        }
        1 => {
            let refs = [first, first + 1, first + 2, first + 3].map(content_ref);
            let mut b = block_of(2, 1 + i as u64, &refs);
            put64(&mut b, 16, FILE_BYTES);
            b
        }
        _ => {
            let refs = [first, first + 1, first + 2, first + 3].map(inode_ref);
            let mut b = block_of(3, 1 + i as u64, &refs);
            put64(&mut b, 24, 200);
            put16(&mut b, 32, 9);
            put_bytes(&mut b, 48, b"A_name.90");
            b
        }
    }
}

/// The blocks of the samples.
pub fn blocks(alloc: Global) -> Result<Vec<[u8; INODE_BYTES]>, AllocError> {
    let mut blocks = Vec::new(alloc);
    for i in 0..INODES {
        blocks.push(block(i))?;
    }
    Ok(blocks)
}

/// Appends an inode.
#[tactic(auto, using(crate::proofs::Pushed::inode_push))]
fn push(inodes: &mut Vec<Inode>, inode: Inode) -> Result<(), AllocError>
    requires before { All IsInode inodes.old.items }
    requires valid { IsInode inode }
    ensures { OnOk result (All IsInode inodes.new.items) }
{
    inodes.push(inode)?;
    Ok(())
}

/// The inode in a block.
fn inode_in(b: &[u8; INODE_BYTES]) -> Option<Inode>
    ensures { IfSome result IsInode }
{
    match decode_inode(b) {
        Ok(inode) => Some(inode),
        Err(_) => None,
    }
}

/// The inodes in blocks, up to the first one that has none.
pub fn inodes(alloc: Global, blocks: &[[u8; INODE_BYTES]]) -> Result<Vec<Inode>, AllocError>
    ensures { IfOk result (λ inodes. All IsInode inodes.items) }
{
    let mut inodes = Vec::new(alloc);
    for b in blocks.iter() {
        let Some(inode) = inode_in(b) else {
            return Ok(inodes);
        };
        push(&mut inodes, inode)?;
    }
    Ok(inodes)
}

/// Encodes each inode, and joins a word of each one's bytes to a number that says which.
pub fn encode_all(inodes: &[Inode], start: u64) -> u64
    requires { All IsInode inodes.now }
{
    let mut joined = start;
    for inode in inodes.iter() {
        let bytes = encode_inode(inode);
        joined = join(joined, get64(&bytes, 8 * (joined % 128) as usize));
    }
    joined
}

/// What an inode says, as one number.
fn number_of_inode(inode: &Inode) -> u64 {
    let held = match &inode.body {
        Body::Refs(set) if set.len() > 0 => number_of(set.at(set.len() - 1)),
        Body::Refs(_) => 0,
        Body::Bytes(bytes) => get64(bytes, 0),
    };
    inode.number ^ inode.size ^ inode.next ^ inode.links as u64 ^ held
}

/// Decodes each inode, and joins what they say to a number.
pub fn decode_all(blocks: &[[u8; INODE_BYTES]], start: u64) -> u64 {
    let mut joined = start;
    for b in blocks.iter() {
        let number = match decode_inode(b) {
            Ok(inode) => number_of_inode(&inode),
            Err(_) => 1,
        };
        joined = join(joined, number);
    }
    joined
}
