ghost use Rattle.std.specs.Prelude.{◌≤◌, length};
ghost use Rattle.h2_num.specs.Places.{places, ZeroIn};
ghost use Rattle.h2_ref.specs.Ref.{IsValid};
ghost use Rattle.h2_image.specs.NewBlocks.{InodeHead, RootDirectoryBytes, RootPfsBytes};

use h2_num::{put_bytes, put8, put16, put32, put64};
use h2_ref::{Ref, encode};

/// The bytes of an inode's block.
pub const SMALL_BLOCK_BYTES: usize = 1024;

// The fields of an inode by their places in its block.
const KIND_AT: usize = 0;

const LINKS_AT: usize = 4;

const NUMBER_AT: usize = 8;

const NEXT_AT: usize = 24;

const NAME_LENGTH_AT: usize = 32;

const NAME_AT: usize = 48;

const BODY_AT: usize = 512;

// The kinds of inodes.
const DIRECTORY: u8 = 1;

const PFS: u8 = 3;

// The block of an inode with one link, no size and no references.
fn inode_block(kind: u8, number: u64, next: u64, name: &[u8]) -> [u8; SMALL_BLOCK_BYTES]
    requires { length name.now ≤ 64 }
    ensures head { InodeHead kind number next name.now (places result) }
    ensures body { ZeroIn 512 1024 (places result) }
{
    let mut b = [0; SMALL_BLOCK_BYTES];
    put8(&mut b, KIND_AT, kind);
    put32(&mut b, LINKS_AT, 1);
    put64(&mut b, NUMBER_AT, number);
    put64(&mut b, NEXT_AT, next);
    put16(&mut b, NAME_LENGTH_AT, name.len() as u16);
    put_bytes(&mut b, NAME_AT, name);
    b
}

/// The block of the root directory of a new volume: inode 1, with no entries.
pub fn root_directory_block() -> [u8; SMALL_BLOCK_BYTES]
    ensures { RootDirectoryBytes (places result) }
{
    inode_block(DIRECTORY, 1, 0, b"")
}

/// The block of the PFS `ROOT` of a new volume, with the inode that the reference names.
pub fn root_pfs_block(directory: &Ref) -> [u8; SMALL_BLOCK_BYTES]
    requires { IsValid directory.now }
    ensures { RootPfsBytes directory.now (places result) }
{
    let mut b = inode_block(PFS, 1, 2, b"ROOT");
    put_bytes(&mut b, BODY_AT, &encode(directory));
    b
}
