ghost use Rattle.std.specs.Prelude.{◌≡◌, ◌≤◌, ◌<◌, ◌+◌, ◌-◌, ◌*◌, ◌^◌, min, suc, IfOk, IfErr, IfSome, IfNone, OnOk, IsTrue, All, length};
ghost use Rattle.h2_num.specs.Places.{places, from_place, SameBelow};
ghost use Rattle.h2_disk.specs.Disk.{Keeps};
ghost use Rattle.h2_ref.specs.Ref.{IsValid, RefBytes};
ghost use Rattle.h2_header.specs.Header.{IsHeader};
ghost use Rattle.h2_header.specs.Map.{zones_under, IsMapEntry};
ghost use Rattle.h2_freemap.specs.Made.{HasNoUse};
ghost use Rattle.h2_freeleaf.specs.Leaf.{part_of};
ghost use Rattle.h2_freeleaf.specs.Node.{IsNode, NodeBytes};
ghost use Rattle.h2_freeleaf.specs.InImage.{AllLead, AreCodesOf, AreEntries, HasCheck, LeadsTo, LeadsToLeaf, LeadsToNode};
ghost use Rattle.h2_freeleaf.specs.FirstBad.{HasCause, IsBad, IsBadCheck, IsBadLeaf, IsBadNode, IsEntryAt, IsFirstBad, IsFirstBadIn, IsWrongEntry};
ghost use Rattle.h2_freeleaf.specs.Reading.{FillsTo, HasRoom, KeepsSegments, NamesMapBlock};

use crate::fault::{MapFault, MapRead};
use crate::layout::{LEAF_SEGMENTS, MAP_BYTES, NODE_REFS};
use crate::leaf::decode_leaf;
use crate::node::ref_at;
use h2_check::crc32c;
use h2_codes::Segment;
use h2_disk::{Disk, DiskFault};
use h2_freemap::Freemap;
use h2_geom::Geometry;
use h2_header::{Header, is_map_entry, top_level, zones_under};
use h2_ref::{Check, REF_BYTES, Ref};
use std::alloc::Global;

/// The block of the freemap that a reference names, if it has the check of the reference.
fn read_block<D: Disk>(disk: &mut D, r: &Ref) -> Result<[u8; MAP_BYTES], MapRead>
    requires block { NamesMapBlock r.now }
    ensures bytes { IfOk result (λ block. IsTrue D.tells → SameBelow 1024 (from_place (D.image disk.old) r.now.place) (places block)) }
    ensures check { IfOk result (λ block. IsTrue D.tells → HasCheck (D.image disk.old) r.now) }
    ensures keeps { IsTrue D.tells → Keeps (D.image disk.old) (D.image disk.new) (D.trace disk.old) (D.trace disk.new) }
    ensures time { D.moment disk.new ≡ D.moment disk.old }
    ensures later { D.faults disk.old ≤ D.faults disk.new }
    ensures cause { IfErr result (λ e. HasCause (λ f. IsTrue D.tells → IsBadCheck (D.image disk.old) r.now f) (D.faults disk.old) (D.faults disk.new) e) }
{
    let mut block = [0; MAP_BYTES];
    match disk.read(r.place, &mut block) {
        Ok(()) => {}
        Err(DiskFault::Failed) => return Err(MapRead::Disk),
        Err(DiskFault::NoMemory) => return Err(MapRead::NoMemory),
    }
    let Check::Crc(want) = r.check else {
        unreachable!();
    };
    let got = crc32c(&block);
    if want != got {
        let place = r.place;
        return Err(MapRead::Fault(MapFault::BadCheck { place, want, got }));
    }
    Ok(block)
}

/// The segments of the leaf that a reference names.
fn read_leaf<D: Disk>(disk: &mut D, r: &Ref) -> Result<[Segment; LEAF_SEGMENTS], MapRead>
    requires block { NamesMapBlock r.now }
    ensures leads { IfOk result (λ leaf. IsTrue D.tells → LeadsToLeaf (D.image disk.old) leaf r.now) }
    ensures keeps { IsTrue D.tells → Keeps (D.image disk.old) (D.image disk.new) (D.trace disk.old) (D.trace disk.new) }
    ensures time { D.moment disk.new ≡ D.moment disk.old }
    ensures later { D.faults disk.old ≤ D.faults disk.new }
    ensures cause { IfErr result (λ e. HasCause (λ f. IsTrue D.tells → IsBadLeaf (D.image disk.old) r.now f) (D.faults disk.old) (D.faults disk.new) e) }
{
    let block = read_block(disk, r)?;
    match decode_leaf(&block, r.place) {
        Ok(leaf) => Ok(leaf),
        Err(fault) => Err(MapRead::Fault(fault)),
    }
}

/// The reference number i of a node whose references stand for the zones from one on, each for a block of a level.
/// None where there is no valid one, or another one.
fn entry_at(h: &Header, level: u32, zone: u32, b: &[u8; MAP_BYTES], i: u32) -> Option<Ref>
    requires header { IsHeader h.now }
    requires room { HasRoom level zone }
    requires index { i < 8 }
    ensures found { IfSome result (λ r. IsValid r × RefBytes r (part_of i (places b.now))) }
    ensures names { IfSome result (λ r. IsMapEntry level h.now.zones h.now.map_number (zone + zones_under level * i) r) }
    ensures none { IfNone result (IsEntryAt (places b.now) level h.now.zones h.now.map_number zone i → ⊥) }
{
    let first = zone + zones_under(level) * i;
    let r = ref_at(b, i as usize)?;
    if !is_map_entry(level, h.zones, h.map_number, first, &r) {
        return None;
    }
    Some(r)
}

/// The references of a node, from its 1024 bytes, which stand for the zones from one on, each for a block of a level.
///
/// # Errors
/// The first that isn't valid or doesn't stand for its zones, of a node at a place on the disk.
fn decode_entries(
    h: &Header,
    level: u32,
    zone: u32,
    b: &[u8; MAP_BYTES],
    place: u64,
) -> Result<[Ref; NODE_REFS], MapFault>
    requires header { IsHeader h.now }
    requires room { HasRoom level zone }
    requires place { place + 1024 ≤ 2 ^ 64 }
    ensures found { IfOk result (λ refs. IsNode refs × NodeBytes refs (places b.now)) }
    ensures entries { IfOk result (λ refs. AreEntries level h.now.zones h.now.map_number zone refs) }
    ensures wrong { IfErr result (IsWrongEntry (places b.now) level h.now.zones h.now.map_number zone place) }
{
    let mut refs = [Ref::empty(); NODE_REFS];
    for i in 0..8u32 {
        let Some(r) = entry_at(h, level, zone, b, i) else {
            return Err(MapFault::Reference(place + REF_BYTES as u64 * i as u64));
        };
        refs[i as usize] = r;
    }
    Ok(refs)
}

/// The references of the node that a reference names, which stand for the zones from one on, each for a block of
/// a level.
fn read_node<D: Disk>(
    disk: &mut D,
    h: &Header,
    level: u32,
    zone: u32,
    r: &Ref,
) -> Result<[Ref; NODE_REFS], MapRead>
    requires header { IsHeader h.now }
    requires room { HasRoom level zone }
    requires block { NamesMapBlock r.now }
    ensures leads { IfOk result (λ refs. IsTrue D.tells → LeadsToNode (D.image disk.old) refs r.now) }
    ensures entries { IfOk result (λ refs. AreEntries level h.now.zones h.now.map_number zone refs) }
    ensures valid { IfOk result (λ refs. All IsValid refs) }
    ensures keeps { IsTrue D.tells → Keeps (D.image disk.old) (D.image disk.new) (D.trace disk.old) (D.trace disk.new) }
    ensures time { D.moment disk.new ≡ D.moment disk.old }
    ensures later { D.faults disk.old ≤ D.faults disk.new }
    ensures cause { IfErr result (λ e. HasCause (λ f. IsTrue D.tells → IsBadNode (D.image disk.old) h.now.zones h.now.map_number level zone r.now f) (D.faults disk.old) (D.faults disk.new) e) }
{
    let block = read_block(disk, r)?;
    match decode_entries(h, level, zone, &block, r.place) {
        Ok(refs) => Ok(refs),
        Err(wrong) => Err(MapRead::Fault(wrong)),
    }
}

/// Reads the block of a level that begins with a zone, and the blocks under it, and adds their segments.
#[cycle(blocks)]
fn read_under<D: Disk>(
    disk: &mut D,
    h: &Header,
    level: u32,
    zone: u32,
    r: &Ref,
    segments: &mut Vec<Segment>,
) -> Result<(), MapRead>
    requires header { IsHeader h.now }
    requires level { level ≤ 2 }
    requires room { zone + zones_under level ≤ 512 }
    requires block { NamesMapBlock r.now }
    requires count { FillsTo h.now.zones zone segments.old.items }
    requires inside { zone < h.now.zones }
    ensures leads { OnOk result (IsTrue D.tells → LeadsTo (D.image disk.old) h.now.zones h.now.map_number segments.new.items level zone r.now) }
    ensures kept { OnOk result (KeepsSegments segments.old.items segments.new.items) }
    ensures count { OnOk result (FillsTo h.now.zones (zone + zones_under level) segments.new.items) }
    ensures keeps { IsTrue D.tells → Keeps (D.image disk.old) (D.image disk.new) (D.trace disk.old) (D.trace disk.new) }
    ensures time { D.moment disk.new ≡ D.moment disk.old }
    ensures later { D.faults disk.old ≤ D.faults disk.new }
    ensures cause { IfErr result (λ e. HasCause (λ f. IsTrue D.tells → IsBad (D.image disk.old) h.now.zones h.now.map_number level zone r.now f) (D.faults disk.old) (D.faults disk.new) e) }
{
    if level == 0 {
        let leaf = read_leaf(disk, r)?;
        let Ok(()) = segments.extend_from_slice(&leaf) else {
            return Err(MapRead::NoMemory);
        };
        return Ok(());
    }
    let refs = read_node(disk, h, level - 1, zone, r)?;
    read_eight(disk, h, level - 1, zone, &refs, segments)
}

/// Reads the blocks of a level that eight references name, from a zone on, and the blocks under them, and adds
/// their segments.
#[cycle(blocks)]
fn read_eight<D: Disk>(
    disk: &mut D,
    h: &Header,
    level: u32,
    zone: u32,
    refs: &[Ref; NODE_REFS],
    segments: &mut Vec<Segment>,
) -> Result<(), MapRead>
    requires header { IsHeader h.now }
    requires level { level ≤ 2 }
    requires room { HasRoom level zone }
    requires entries { AreEntries level h.now.zones h.now.map_number zone refs.now }
    requires valid { All IsValid refs.now }
    requires count { FillsTo h.now.zones zone segments.old.items }
    ensures leads { OnOk result (IsTrue D.tells → AllLead (D.image disk.old) h.now.zones h.now.map_number segments.new.items level zone refs.now) }
    ensures kept { OnOk result (KeepsSegments segments.old.items segments.new.items) }
    ensures count { OnOk result (FillsTo h.now.zones (zone + zones_under level * 8) segments.new.items) }
    ensures keeps { IsTrue D.tells → Keeps (D.image disk.old) (D.image disk.new) (D.trace disk.old) (D.trace disk.new) }
    ensures time { D.moment disk.new ≡ D.moment disk.old }
    ensures later { D.faults disk.old ≤ D.faults disk.new }
    ensures cause { IfErr result (λ e. HasCause (λ f. IsTrue D.tells → IsFirstBadIn (D.image disk.old) h.now.zones h.now.map_number level zone refs.now f) (D.faults disk.old) (D.faults disk.new) e) }
{
    for i in 0..8u32 {
        let first = zone + zones_under(level) * i;
        if first >= h.zones {
            return Ok(());
        }
        read_under(disk, h, level, first, &refs[i as usize], segments)?;
    }
    Ok(())
}

/// The freemap of an image under a header, whose fields are those of a header: the map of its zones, with no cursor
/// and no pin, and the codes to which the header's map leads. It writes nothing.
///
/// # Errors
/// `Fault` names the first bad block in the order of keys, where a node comes before what is under it: its check, or
/// else its fault at the least place. `Disk` comes only where the disk's count of faults rose, and `NoMemory` for
/// want of memory.
pub fn read_map<D: Disk>(alloc: Global, disk: &mut D, h: &Header) -> Result<Freemap, MapRead>
    requires { IsHeader h.now }
    ensures codes { IfOk result (λ m. IsTrue D.tells → AreCodesOf (D.image disk.old) h.now m.segments) }
    ensures zones { IfOk result (λ m. m.zones ≡ h.now.zones) }
    ensures unused { IfOk result HasNoUse }
    ensures keeps { IsTrue D.tells → Keeps (D.image disk.old) (D.image disk.new) (D.trace disk.old) (D.trace disk.new) }
    ensures time { D.moment disk.new ≡ D.moment disk.old }
    ensures later { D.faults disk.old ≤ D.faults disk.new }
    ensures cause { IfErr result (λ e. HasCause (λ f. IsTrue D.tells → IsFirstBad (D.image disk.old) h.now f) (D.faults disk.old) (D.faults disk.new) e) }
{
    let Some(geometry) = Geometry::of(h.zones) else {
        unreachable!();
    };
    let Ok(mut segments) = Vec::with_capacity(alloc, geometry.segments() as usize) else {
        return Err(MapRead::NoMemory);
    };
    read_eight(disk, h, top_level(h.zones), 0, &h.map, &mut segments)?;
    let Ok(map) = Freemap::from_segments(alloc, geometry, segments) else {
        return Err(MapRead::NoMemory);
    };
    Ok(map)
}
