ghost use Rattle.std.specs.Prelude.{◌≡◌, ◌<◌, ◌≤◌, ◌+◌, ◌*◌, ◌^◌, All, IfErr, IfNone, IfOk, IfSome, OnErr, length};
ghost use Rattle.h2_num.specs.Places.{places, from_place, SameOutside};
ghost use Rattle.h2_ref.specs.Ref.{IsValid, NoRef, RefBytes};
ghost use Rattle.h2_freeleaf.specs.Leaf.{part_of};
ghost use Rattle.h2_freeleaf.specs.Node.{IsNode, NodeBytes, NoNode};
ghost use Rattle.h2_freeleaf.specs.Fault.{IsNodeFault};

use crate::fault::MapFault;
use crate::layout::{MAP_BYTES, NODE_REFS};
use crate::part::part_of;
use h2_num::put_bytes;
use h2_ref::{REF_BYTES, Ref, decode, encode};

/// Puts a reference at a place.
fn put_ref(r: &Ref, at: usize, out: &mut [u8])
    requires valid { IsValid r.now }
    requires room { at + 128 ≤ length out.old }
    ensures bytes { RefBytes r.now (from_place (places out.new) at) }
    ensures others { SameOutside at 128 (places out.old) (places out.new) }
{
    put_bytes(out, at, &encode(r));
}

/// The 1024 bytes of a node, by its eight references, which are valid.
pub fn encode_node(r: &[Ref; NODE_REFS]) -> [u8; MAP_BYTES]
    requires valid { All IsValid r.now }
    ensures { NodeBytes r.now (places result) }
{
    let mut out = [0; MAP_BYTES];
    for i in 0..NODE_REFS {
        put_ref(&r[i], REF_BYTES * i, &mut out);
    }
    out
}

/// The valid reference number i of a node; None where there is none.
pub(crate) fn ref_at(b: &[u8; MAP_BYTES], i: usize) -> Option<Ref>
    requires { i < 8 }
    ensures found { IfSome result (λ r. IsValid r × RefBytes r (part_of i (places b.now))) }
    ensures none { IfNone result (NoRef (part_of i (places b.now))) }
{
    decode(part_of(b, i)).ok()
}

/// The eight references of a node, from its 1024 bytes. The node's place is that of its first byte on the disk; the
/// places of all its bytes fit 64 bits.
///
/// # Errors
/// Exactly where the bytes spell no node: `Reference` with the place on the disk of the first byte of the
/// first reference that isn't valid.
pub fn decode_node(b: &[u8; MAP_BYTES], place: u64) -> Result<[Ref; NODE_REFS], MapFault>
    requires place { place + 1024 ≤ 2 ^ 64 }
    ensures found { IfOk result (λ refs. IsNode refs × NodeBytes refs (places b.now)) }
    ensures fault { IfErr result (IsNodeFault place (places b.now)) }
    ensures none { OnErr result (NoNode (places b.now)) }
{
    let mut refs = [Ref::empty(); NODE_REFS];
    for i in 0..NODE_REFS {
        let Some(r) = ref_at(b, i) else {
            return Err(MapFault::Reference(place + (REF_BYTES * i) as u64));
        };
        refs[i] = r;
    }
    Ok(refs)
}
