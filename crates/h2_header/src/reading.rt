ghost use Rattle.std.specs.Prelude.{◌≡◌, ◌≤◌, ◌<◌, ◌↔◌, ◌+◌, IfErr, IfNone, IfOk, IfSome, IsTrue, OnErr, codes, length};
ghost use Rattle.h2_num.specs.Places.{places, number_at, SameBelow, ZeroIn};
ghost use Rattle.h2_header.specs.Fault.{IsFirstWrong, IsHeadFault};
ghost use Rattle.h2_header.specs.FaultLaws.{HasNumbers};
ghost use Rattle.h2_header.specs.Reading.{HasFields, IsFirstNonzero};
ghost use Rattle.h2_header.specs.Header.{IsHeaderAt, NoHeaderAt};

use crate::fault::HeadFault;
use crate::header::Header;
use crate::layout::{
    CHECK_AT, MAGIC, MAP_END, MAP_NUMBER_AT, NEXT_PFS_AT, NUMBER_AT, NUMBERS_END, ROOT_AT, VERSION,
    VERSION_AT, ZONES_AT, check_of,
};
use crate::reading_refs::{read_map, read_root};
use crate::rules::{is_next_pfs, is_number_of, is_zone_count};
use h2_num::{first_nonzero, get32, get64};

/// Whether the block begins with the magic.
fn has_magic(b: &[u8]) -> bool
    requires { length b.now ≡ 65536 }
    ensures { IsTrue result ↔ SameBelow 8 (places (codes "H2VOLUME")) (places b.now) }
{
    b.starts_with(MAGIC)
}

/// The place of the first wrong number; None where all are right.
fn wrong_number(b: &[u8], slot: u32) -> Option<u32>
    requires { length b.now ≡ 65536 }
    ensures right { IfNone result (HasNumbers slot (places b.now)) }
    ensures wrong { IfSome result (IsFirstWrong slot (places b.now)) }
{
    if !is_zone_count(get32(b, ZONES_AT)) {
        return Some(ZONES_AT as u32);
    }
    let number = get64(b, NUMBER_AT);
    if !is_number_of(slot, number) {
        return Some(NUMBER_AT as u32);
    }
    if get64(b, MAP_NUMBER_AT) != number {
        return Some(MAP_NUMBER_AT as u32);
    }
    if !is_next_pfs(get64(b, NEXT_PFS_AT)) {
        return Some(NEXT_PFS_AT as u32);
    }
    None
}

/// The place of the first byte of a range that isn't zero; None where all are.
fn wrong_zero(b: &[u8], from: usize, to: usize) -> Option<u32>
    requires size { length b.now ≡ 65536 }
    requires ordered { from ≤ to }
    requires within { to ≤ 65536 }
    ensures right { IfNone result (ZeroIn from to (places b.now)) }
    ensures wrong { IfSome result (IsFirstNonzero from to (places b.now)) }
{
    match first_nonzero(b, from, to) {
        None => None,
        Some(at) => Some(at as u32),
    }
}

/// Reads the fields in the order of their places.
///
/// # Errors
/// The least place of a wrong field.
fn read_fields(b: &[u8], slot: u32) -> Result<Header, u32>
    requires size { length b.now ≡ 65536 }
    ensures right { IfOk result (HasFields slot (places b.now)) }
    ensures wrong { IfErr result (IsFirstWrong slot (places b.now)) }
{
    if let Some(at) = wrong_number(b, slot) {
        return Err(at);
    }
    if let Some(at) = wrong_zero(b, NUMBERS_END, ROOT_AT) {
        return Err(at);
    }
    let root = match read_root(b) {
        Ok(root) => root,
        Err(at) => return Err(at),
    };
    let zones = get32(b, ZONES_AT);
    let map_number = get64(b, MAP_NUMBER_AT);
    let map = match read_map(b, zones, map_number) {
        Ok(map) => map,
        Err(at) => return Err(at),
    };
    if let Some(at) = wrong_zero(b, MAP_END, CHECK_AT) {
        return Err(at);
    }
    Ok(Header {
        number: get64(b, NUMBER_AT),
        zones,
        map_number,
        next_pfs: get64(b, NEXT_PFS_AT),
        root,
        map,
    })
}

/// The header that the 65536 bytes spell for a slot below 4.
///
/// # Errors
/// Exactly where they spell none: the first refusal of the order `Magic`, `Version` with the version found,
/// `Check` with the stored and the computed check, `Field` with the least place of a wrong field. A number
/// that doesn't belong to the slot is a wrong field at 16.
pub fn read_from(b: &[u8], slot: u32) -> Result<Header, HeadFault>
    requires size { length b.now ≡ 65536 }
    requires slot { slot < 4 }
    ensures found { IfOk result (IsHeaderAt slot (places b.now)) }
    ensures fault { IfErr result (IsHeadFault slot (places b.now)) }
    ensures none { OnErr result (NoHeaderAt slot (places b.now)) }
{
    if !has_magic(b) {
        return Err(HeadFault::Magic);
    }
    let version = get32(b, VERSION_AT);
    if version != VERSION {
        return Err(HeadFault::Version(version));
    }
    let want = get32(b, CHECK_AT);
    let got = check_of(b);
    if want != got {
        return Err(HeadFault::Check { want, got });
    }
    match read_fields(b, slot) {
        Ok(h) => Ok(h),
        Err(at) => Err(HeadFault::Field(at)),
    }
}
