ghost use Rattle.std.specs.Prelude.{◌≡◌, ◌<◌, ◌≤◌, ◌+◌, ◌*◌, ◌^◌, IfErr, IfOk, OnErr, length};
ghost use Rattle.h2_num.specs.Places.{places, from_place, SameOutside};
ghost use Rattle.h2_codes.specs.Codes.{IsSegment};
ghost use Rattle.h2_codes.specs.Layout.{HoldCodes};
ghost use Rattle.h2_freeleaf.specs.Leaf.{part_of, IsLeaf, LeafBytes, NoLeaf, PartBytes};
ghost use Rattle.h2_freeleaf.specs.Fault.{IsLeafFault, IsPartFault};

use crate::fault::MapFault;
use crate::layout::{CODES_AT, FREE_AT, FREE_END, LEAF_SEGMENTS, MAP_BYTES, PART_BYTES};
use crate::part::part_of;
use h2_codes::{SEGMENT_BYTES, Segment, layout_law};
use h2_num::{first_nonzero, get32, put_bytes, put32};

/// The part of a segment.
fn encode_part(segment: &Segment) -> [u8; PART_BYTES]
    ensures bytes { PartBytes segment.now (places result) }
    ensures chunks { IsSegment segment.now }
{
    let mut b = [0; PART_BYTES];
    put_bytes(&mut b, CODES_AT, segment.as_bytes());
    put32(&mut b, FREE_AT, segment.free());
    b
}

/// Puts the part of a segment at a place.
fn put_part(segment: &Segment, at: usize, out: &mut [u8])
    requires room { at + 128 ≤ length out.old }
    ensures bytes { PartBytes segment.now (from_place (places out.new) at) }
    ensures chunks { IsSegment segment.now }
    ensures others { SameOutside at 128 (places out.old) (places out.new) }
{
    put_bytes(out, at, &encode_part(segment));
}

/// The 1024 bytes of the leaf of a zone, by the codes of its eight segments.
pub fn encode_leaf(s: &[Segment; LEAF_SEGMENTS]) -> [u8; MAP_BYTES]
    ensures bytes { LeafBytes s.now (places result) }
    ensures leaf { IsLeaf s.now }
{
    let mut out = [0; MAP_BYTES];
    for i in 0..LEAF_SEGMENTS {
        put_part(&s[i], PART_BYTES * i, &mut out);
    }
    out
}

/// The segment whose codes stand in the first 64 bytes of a part.
fn codes_of(b: &[u8; PART_BYTES]) -> Segment
    ensures codes { HoldCodes (places b.now) result }
    ensures chunks { IsSegment result }
{
    let Some(codes) = b.first_chunk::<SEGMENT_BYTES>() else {
        unreachable!();
    };
    Segment::from_bytes(codes)
}

/// The segment of a part, of which the place of the first byte is given.
///
/// # Errors
/// The first refusal of the part.
fn decode_part(b: &[u8; PART_BYTES], place: u64) -> Result<Segment, MapFault>
    requires place { place + 128 ≤ 2 ^ 64 }
    ensures found { IfOk result (λ codes. IsSegment codes × PartBytes codes (places b.now)) }
    ensures fault { IfErr result (IsPartFault place (places b.now)) }
{
    layout_law();
    let segment = codes_of(b);
    if get32(b, FREE_AT) != segment.free() {
        return Err(MapFault::Shape(place + FREE_AT as u64));
    }
    if let Some(at) = first_nonzero(b, FREE_END, PART_BYTES) {
        return Err(MapFault::Padding(place + at as u64));
    }
    Ok(segment)
}

/// The segment of part number i of a leaf, of which the place of the first byte is given.
///
/// # Errors
/// The first refusal of the part.
fn segment_at(b: &[u8; MAP_BYTES], i: usize, place: u64) -> Result<Segment, MapFault>
    requires place { place + 1024 ≤ 2 ^ 64 }
    requires index { i < 8 }
    ensures found { IfOk result (λ codes. IsSegment codes × PartBytes codes (part_of i (places b.now))) }
    ensures fault { IfErr result (IsPartFault (place + 128 * i) (part_of i (places b.now))) }
{
    decode_part(part_of(b, i), place + (PART_BYTES * i) as u64)
}

/// The codes of the eight segments of a zone, from the 1024 bytes of its leaf. The leaf's place is that of its
/// first byte on the disk; the places of all its bytes fit 64 bits.
///
/// # Errors
/// Exactly where the bytes spell no leaf: of the wrong counts and of the nonzero bytes that must be zero, the one
/// at the least place. It is `Shape` with the place of the count's first byte on the disk, or `Padding` with
/// that of the byte.
pub fn decode_leaf(b: &[u8; MAP_BYTES], place: u64) -> Result<[Segment; LEAF_SEGMENTS], MapFault>
    requires place { place + 1024 ≤ 2 ^ 64 }
    ensures found { IfOk result (λ leaf. IsLeaf leaf × LeafBytes leaf (places b.now)) }
    ensures fault { IfErr result (IsLeafFault place (places b.now)) }
    ensures none { OnErr result (NoLeaf (places b.now)) }
{
    let mut segments = [Segment::new(false); LEAF_SEGMENTS];
    for i in 0..LEAF_SEGMENTS {
        match segment_at(b, i, place) {
            Ok(segment) => segments[i] = segment,
            Err(fault) => return Err(fault),
        }
    }
    Ok(segments)
}
