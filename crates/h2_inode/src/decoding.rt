ghost use Rattle.std.specs.Prelude.{◌≡◌, ◌<◌, ℕ, length, slice_index, IfOk, IfErr};
ghost use Rattle.h2_num.specs.Places.{places, from_place, number_at, ZeroIn};
ghost use Rattle.h2_inode.specs.Kind.{kind_byte};
ghost use Rattle.h2_inode.specs.Head.{HeadFits, body_of, zeros_from};
ghost use Rattle.h2_inode.specs.Inode.{BodyFits, BodyBytes, body_byte, IsInode, InodeBytes};
ghost use Rattle.h2_inode.specs.Fault.{IsFaultOf, IsRefsFault};

use crate::contents::{bytes_of, refs_of};
use crate::fault::InodeFault;
use crate::head::{body_of, check_head};
use crate::inode::{Body, Inode};
use crate::kind::{InodeKind, kind_of};
use crate::layout::{INODE_BYTES, KIND_AT, LINKS_AT, NEXT_AT, NUMBER_AT, SIZE_AT};
use crate::pfs_name::PfsName;
use h2_num::{get32, get64};

/// The body of an inode of this kind and size. The error is the first fault of its references.
fn body_at(kind: InodeKind, size: u64, b: &[u8; INODE_BYTES]) -> Result<Body, InodeFault>
    requires { ZeroIn (zeros_from kind size) 1024 (places b.now) }
    ensures fits { IfOk result (BodyFits kind size) }
    ensures number { IfOk result (λ body. body_of kind size ≡ body_byte body) }
    ensures bytes { IfOk result (λ body. BodyBytes body (from_place (places b.now) 512)) }
    ensures refs { IfErr result (λ fault. body_of kind size ≡ 0) }
    ensures fault { IfErr result (IsRefsFault kind size (from_place (places b.now) 512)) }
{
    if body_of(kind, size) == 1 {
        return Ok(Body::Bytes(bytes_of(b)));
    }
    match refs_of(kind, size, b) {
        Ok(set) => Ok(Body::Refs(set)),
        Err(fault) => Err(fault),
    }
}

/// The inode with this kind and name, whose other fields before the body are in order.
fn with_body(kind: InodeKind, name: PfsName, b: &[u8; INODE_BYTES]) -> Result<Inode, InodeFault>
    requires kind { places b.now 0 ≡ kind_byte kind }
    requires head { HeadFits kind name (places b.now) }
    ensures found { IfOk result (λ i. IsInode i × InodeBytes i (places b.now)) }
    ensures fault { IfErr result (IsFaultOf (places b.now)) }
{
    match body_at(kind, get64(b, SIZE_AT), b) {
        Ok(body) => Ok(Inode {
            kind,
            number: get64(b, NUMBER_AT),
            size: get64(b, SIZE_AT),
            links: get32(b, LINKS_AT),
            next: get64(b, NEXT_AT),
            name,
            body,
        }),
        Err(fault) => Err(fault),
    }
}

/// The inode in 1024 bytes.
///
/// # Errors
/// Exactly where the bytes spell no inode: the first fault of the order `Kind`, `Body`, `Links`, `Number`,
/// `Size`, `Next`, `Name`, `Padding`, `Reference`, `Shape`.
pub fn decode_inode(b: &[u8; INODE_BYTES]) -> Result<Inode, InodeFault>
    ensures found { IfOk result (λ i. IsInode i × InodeBytes i (places b.now)) }
    ensures fault { IfErr result (IsFaultOf (places b.now)) }
{
    let Some(kind) = kind_of(b[KIND_AT]) else {
        return Err(InodeFault::Kind(b[KIND_AT]));
    };
    match check_head(kind, b) {
        Ok(name) => with_body(kind, name, b),
        Err(fault) => Err(fault),
    }
}
