ghost use Rattle.std.specs.Prelude.{◌≡◌, ◌<◌, ◌≤◌, ◌+◌, ℕ, length, slice_index};
ghost use Rattle.h2_num.specs.Places.{places, from_place, number_at, ZeroIn, SameOutside};
ghost use Rattle.h2_inode.specs.Inode.{BodyBytes, body_byte, IsStorable, IsInode, InodeBytes};

use crate::inode::{Body, Inode};
use crate::kind::kind_byte;
use crate::layout::{
    BODY_AT, BODY_BYTES, CONTENTS_AT, INODE_BYTES, KIND_AT, LINKS_AT, NAME_AT, NAME_LEN_AT,
    NEXT_AT, NUMBER_AT, SIZE_AT,
};
use h2_num::{put_bytes, put8, put16, put32, put64};
use h2_set::encode_set;

/// The number of a body.
fn body_byte(body: &Body) -> u8
    ensures { result ≡ body_byte body.now }
{
    match body {
        Body::Refs(_) => 0,
        Body::Bytes(_) => 1,
    }
}

/// The 512 bytes of a body.
fn body_bytes(body: &Body) -> [u8; BODY_BYTES]
    requires { IsStorable body.now }
    ensures len { length result ≡ 512 }
    ensures bytes { BodyBytes body.now (places result) }
{
    match body {
        Body::Refs(set) => {
            let mut bytes = [0; BODY_BYTES];
            encode_set(set, &mut bytes);
            bytes
        }
        Body::Bytes(bytes) => *bytes,
    }
}

/// The 1024 bytes of an inode whose fields, name and body are those of its kind.
pub fn encode_inode(i: &Inode) -> [u8; INODE_BYTES]
    requires { IsInode i.now }
    ensures { InodeBytes i.now (places result) }
{
    let mut b = [0; INODE_BYTES];
    put_bytes(&mut b, CONTENTS_AT, &body_bytes(&i.body));
    put_bytes(&mut b, NAME_AT, i.name.as_slice());
    put8(&mut b, KIND_AT, kind_byte(i.kind));
    put8(&mut b, BODY_AT, body_byte(&i.body));
    put32(&mut b, LINKS_AT, i.links);
    put64(&mut b, NUMBER_AT, i.number);
    put64(&mut b, SIZE_AT, i.size);
    put64(&mut b, NEXT_AT, i.next);
    put16(&mut b, NAME_LEN_AT, i.name.as_slice().len() as u16);
    b
}
