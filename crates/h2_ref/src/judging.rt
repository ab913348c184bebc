ghost use Rattle.std.specs.Prelude.{◌≡◌, ◌<◌, ◌≤◌, ◌+◌, IfNone, IfSome, MatchOption, option_map};
ghost use Rattle.h2_num.specs.Places.{places, ZeroIn};
ghost use Rattle.h2_ref.specs.Fault.{area_len_at, entry_fits_at, fault_by, fields_end_at, first_place, is_entry_at, is_padding, place_at, radix_at};
ghost use Rattle.h2_ref.specs.Limits.{IsLimited};

use crate::faults::RefFault;
use crate::flags::RefFlags;
use crate::layout::{
    AREA_AT, FLAGS_AT, FLAGS_END, ID_AT, KEY_AT, KEYBITS_AT, LEN_AT, METHOD_AT, NUMBER_AT,
    PLACE_AT, REF_BYTES, TARGET_AT, TARGET_END,
};
use crate::methods::method_row;
use crate::rules::{in_span, is_method_of, key_fits, method_in, place_fits};
use crate::table::{INODE_END, Row, Span};
use bitflags::Flags;
use h2_num::{first_nonzero, get16, get64};

/// One more than the greatest radix that the low bits of a place hold.
const RADIX_END: u64 = 64;

/// The radix: the low six bits of the place.
pub fn radix_at(b: &[u8; REF_BYTES]) -> u8
    ensures value { result ≡ radix_at (places b.now) }
    ensures six_bits { result < 64 }
{
    (get64(b, PLACE_AT) % RADIX_END) as u8
}

/// The place without the radix.
pub fn place_at(b: &[u8; REF_BYTES]) -> u64
    ensures { result ≡ place_at (places b.now) }
{
    get64(b, PLACE_AT) - radix_at(b) as u64
}

/// Whether the length, the target and the number of an entry are in their ranges.
fn is_entry_at(names: Span, b: &[u8; REF_BYTES]) -> bool
    ensures { result ≡ is_entry_at names (places b.now) }
{
    in_span(names, get16(b, LEN_AT) as u64)
        && (b[TARGET_AT] == 1 || b[TARGET_AT] == 2)
        && get64(b, NUMBER_AT) > 0
        && get64(b, NUMBER_AT) < INODE_END
}

/// Whether they are, if the kind is an entry.
fn entry_fits_at(names: Option<Span>, b: &[u8; REF_BYTES]) -> bool
    ensures { result ≡ entry_fits_at names (places b.now) }
{
    match names {
        None => true,
        Some(names) => is_entry_at(names, b),
    }
}

/// How many bytes of the check area are in use: those of a name that stands there, or of the check.
fn area_len_at(w: &Row, b: &[u8; REF_BYTES]) -> usize
    ensures { result ≡ area_len_at w.now w.now.names (places b.now) }
{
    if w.names.is_some() && w.flags == RefFlags::INLINE {
        get16(b, LEN_AT) as usize
    } else {
        method_row(method_in(w.methods, b[METHOD_AT])).area
    }
}

/// Where the fields of an entry end, or those of every other kind.
fn fields_end_at(names: Option<Span>) -> usize
    ensures end { result ≡ fields_end_at names }
    ensures before_area { result ≤ 64 }
{
    match names {
        None => NUMBER_AT,
        Some(_) => TARGET_END,
    }
}

/// The first nonzero byte from a place on.
fn nonzero_from(b: &[u8; REF_BYTES], from: usize) -> Option<usize>
    ensures { MatchOption result (ZeroIn from 128 (places b.now))
        (λ at. (from ≤ at) × (at < 128) × (0 < places b.now at) × ZeroIn from at (places b.now)) }
{
    if from >= REF_BYTES {
        return None;
    }
    first_nonzero(b, from, REF_BYTES)
}

/// The first nonzero byte that must be zero: before the key, before the check area, or behind what is in use
/// of the area.
fn first_padding(w: &Row, b: &[u8; REF_BYTES]) -> Option<usize>
    ensures place { result ≡ first_place (is_padding w.now (places b.now)) 128 }
    ensures within { IfSome result (λ at. at < 128) }
{
    if let Some(at) = first_nonzero(b, FLAGS_END, KEY_AT) {
        return Some(at);
    }
    if let Some(at) = first_nonzero(b, fields_end_at(w.names), AREA_AT) {
        return Some(at);
    }
    nonzero_from(b, AREA_AT + area_len_at(w, b))
}

/// The first refusal by a row of the table.
pub fn fault_by(w: &Row, b: &[u8; REF_BYTES]) -> Option<RefFault>
    requires { IsLimited w.now }
    ensures { result ≡ fault_by w.now (places b.now) }
{
    if !is_method_of(w.methods, b[METHOD_AT]) {
        return Some(RefFault::Method(b[METHOD_AT]));
    }
    if RefFlags::from_bits_retain(b[FLAGS_AT]) != w.flags {
        return Some(RefFault::Padding(FLAGS_AT as u8));
    }
    if radix_at(b) != w.radix {
        return Some(RefFault::Radix(radix_at(b)));
    }
    if !place_fits(w.radix, place_at(b)) {
        return Some(RefFault::Place(place_at(b)));
    }
    if !key_fits(w, b[KEYBITS_AT], get64(b, KEY_AT)) {
        return Some(RefFault::Key);
    }
    if !in_span(w.ids, get64(b, ID_AT)) {
        return Some(RefFault::Id);
    }
    if !entry_fits_at(w.names, b) {
        return Some(RefFault::Dirent);
    }
    first_padding(w, b).map(|at| RefFault::Padding(at as u8))
}
