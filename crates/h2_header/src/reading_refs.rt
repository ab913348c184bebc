ghost use Rattle.std.specs.Prelude.{◌≡◌, ◌≤◌, ◌<◌, ◌+◌, ◌*◌, IfErr, IfNone, IfOk, IfSome, MatchOption, length};
ghost use Rattle.h2_num.specs.Places.{places, number_at, from_place};
ghost use Rattle.h2_ref.specs.Ref.{IsValid, NoRef, RefBytes};
ghost use Rattle.h2_ref.specs.Set.{MayFollow, RefsBytes};
ghost use Rattle.h2_header.specs.Map.{IsMap, IsMapSlot};
ghost use Rattle.h2_header.specs.Header.{IsRoot, IsRootRef};
ghost use Rattle.h2_header.specs.Fault.{IsMapAt, IsRootAt, ref_bytes};
ghost use Rattle.h2_header.specs.Reading.{IsBefore, IsFirstMap, IsFirstRoot};

use crate::layout::{MAP_AT, ROOT_AT};
use crate::map_blocks::is_map_slot;
use crate::rules::is_root_ref;
use h2_ref::{REF_BYTES, Ref, decode, may_follow};

/// The valid reference number i of those that begin at a place; None where there is none.
fn ref_at(b: &[u8], at: usize, i: usize) -> Option<Ref>
    requires { at + 128 * i + 128 ≤ length b.now }
    ensures found { IfSome result (λ r. IsValid r × RefBytes r (ref_bytes at i (places b.now))) }
    ensures none { IfNone result (NoRef (ref_bytes at i (places b.now))) }
{
    let Some(bytes) = b[at + REF_BYTES * i..].first_chunk::<REF_BYTES>() else {
        unreachable!();
    };
    decode(bytes).ok()
}

/// Reference number i of the super-root, behind the one before it; None where it is wrong.
fn root_ref(b: &[u8], i: usize, before: Option<Ref>) -> Option<Ref>
    requires size { length b.now ≡ 65536 }
    requires index { i < 4 }
    requires before { MatchOption before (i ≡ 0) (IsBefore (places b.now) i) }
    ensures spelled { IfSome result (λ r. RefBytes r (ref_bytes 512 i (places b.now))) }
    ensures may { IfSome result IsRootRef }
    ensures follows { IfSome result (λ r. IfSome before (λ q. MayFollow q r)) }
    ensures wrong { IfNone result (IsRootAt (places b.now) i → ⊥) }
{
    let Some(r) = ref_at(b, ROOT_AT, i) else {
        return None;
    };
    if !is_root_ref(&r) {
        return None;
    }
    if let Some(q) = before {
        if !may_follow(&q, &r) {
            return None;
        }
    }
    Some(r)
}

/// The super-root.
///
/// # Errors
/// The place of its first wrong reference.
pub fn read_root(b: &[u8]) -> Result<[Ref; 4], u32>
    requires size { length b.now ≡ 65536 }
    ensures root { IfOk result IsRoot }
    ensures spelled { IfOk result (λ refs. RefsBytes refs (from_place (places b.now) 512)) }
    ensures wrong { IfErr result (IsFirstRoot (places b.now)) }
{
    let mut refs = [Ref::empty(); 4];
    let mut before = None;
    for i in 0..4usize {
        let Some(r) = root_ref(b, i, before) else {
            return Err((ROOT_AT + REF_BYTES * i) as u32);
        };
        refs[i] = r;
        before = Some(r);
    }
    Ok(refs)
}

/// Reference number i of the map; None where it is wrong.
fn map_ref(b: &[u8], i: usize, zones: u32, number: u64) -> Option<Ref>
    requires size { length b.now ≡ 65536 }
    requires index { i < 8 }
    requires zones { zones ≡ number_at (places b.now) 12 4 }
    requires number { number ≡ number_at (places b.now) 24 8 }
    requires above { 1 ≤ number }
    ensures spelled { IfSome result (λ r. RefBytes r (ref_bytes 1024 i (places b.now))) }
    ensures valid { IfSome result IsValid }
    ensures names { IfSome result (IsMapSlot zones number i) }
    ensures wrong { IfNone result (IsMapAt (places b.now) i → ⊥) }
{
    let Some(r) = ref_at(b, MAP_AT, i) else {
        return None;
    };
    if is_map_slot(zones, number, i as u32, &r) {
        Some(r)
    } else {
        None
    }
}

/// The references of the map, by the zones and the map number of the header.
///
/// # Errors
/// The place of the first wrong one.
pub fn read_map(b: &[u8], zones: u32, number: u64) -> Result<[Ref; 8], u32>
    requires size { length b.now ≡ 65536 }
    requires zones { zones ≡ number_at (places b.now) 12 4 }
    requires number { number ≡ number_at (places b.now) 24 8 }
    requires above { 1 ≤ number }
    ensures map { IfOk result (IsMap zones number) }
    ensures spelled { IfOk result (λ refs. RefsBytes refs (from_place (places b.now) 1024)) }
    ensures wrong { IfErr result (IsFirstMap (places b.now)) }
{
    let mut refs = [Ref::empty(); 8];
    for i in 0..8usize {
        let Some(r) = map_ref(b, i, zones, number) else {
            return Err((MAP_AT + REF_BYTES * i) as u32);
        };
        refs[i] = r;
    }
    Ok(refs)
}
