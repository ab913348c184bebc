ghost use Rattle.std.specs.Prelude.{◌≡◌, ◌<◌, ◌%◌, ◌^◌, ◌==◌, ◌↔◌, IsTrue, length};
ghost use Rattle.h2_num.specs.Places.{places, ZeroIn};
ghost use Rattle.h2_ref.specs.Methods.{method_row};
ghost use Rattle.h2_ref.specs.Ref.{HasKeybits, InSpan, IsMethodOf, IsStored, method_in, method_number, PlaceFits, KeyFits, EntryFits, IsEntry, FitsRow, IsValid, inline_len};
ghost use Rattle.h2_ref.specs.Fault.{in_span, is_method_of, has_keybits, key_fits, place_fits};
ghost use Rattle.h2_ref.specs.Limits.{IsLimited};

use crate::flags::RefFlags;
use crate::methods::{Method, method_of, method_row};
use crate::reference::{Check, Dirent, Ref};
use crate::table::{DISK_BYTES, INODE_END, Keybits, Methods, Row, Span, row_of};
use h2_num::first_nonzero;

/// Whether a number is in a span.
pub fn in_span(s: Span, n: u64) -> bool
    ensures test { result ≡ in_span s n }
    ensures fact { IsTrue result ↔ InSpan s n }
{
    s.least <= n && n <= s.last
}

/// Whether this is the number of a method.
fn is_number_of(method: Method, number: u8) -> bool
    ensures test { result ≡ (number == (method_row method).number) }
    ensures fact { IsTrue result ↔ (number ≡ (method_row method).number) }
{
    number == method_row(method).number
}

/// Whether this is the number of one of the methods.
pub fn is_method_of(methods: Methods, number: u8) -> bool
    ensures test { result ≡ is_method_of methods number }
    ensures fact { IsTrue result ↔ IsMethodOf methods number }
{
    match methods {
        Methods::One(a) => is_number_of(a, number),
        Methods::Two(a, b) => is_number_of(a, number) || is_number_of(b, number),
    }
}

/// That one of the methods that has the number; the last, where none has it.
pub fn method_in(methods: Methods, number: u8) -> Method
    ensures { result ≡ method_in methods number }
{
    match methods {
        Methods::One(a) => a,
        Methods::Two(a, b) => if is_number_of(a, number) { a } else { b },
    }
}

/// Whether these are keybits of a kind.
pub fn has_keybits(keybits: Keybits, n: u8) -> bool
    ensures test { result ≡ has_keybits keybits n }
    ensures fact { IsTrue result ↔ HasKeybits keybits n }
{
    match keybits {
        Keybits::Just(a) => n == a,
        Keybits::Either(a, b) => n == a || n == b,
        Keybits::Between(a, b) => a <= n && n <= b,
    }
}

/// Whether a kind has such a key.
pub fn key_fits(w: &Row, keybits: u8, key: u64) -> bool
    requires { IsLimited w.now }
    ensures test { result ≡ key_fits w.now keybits key }
    ensures fact { IsTrue result ↔ KeyFits w.now keybits key }
{
    has_keybits(w.keybits, keybits) && in_span(w.keys, key) && key % (1 << keybits) == 0
}

/// Whether a block with this radix may lie at a place.
pub fn place_fits(radix: u8, place: u64) -> bool
    requires { radix < 32 }
    ensures test { result ≡ place_fits radix place }
    ensures fact { IsTrue result ↔ PlaceFits radix place }
{
    if radix == 0 {
        place == 0
    } else {
        place > 0 && place < DISK_BYTES && place % (1 << radix) == 0
    }
}

/// How many bytes of an entry's name stand in it.
pub fn inline_len(w: &Row, len: u16) -> u16
    ensures { result ≡ inline_len w.now len }
{
    if w.flags == RefFlags::INLINE { len } else { 0 }
}

/// Whether a name ends in zeros from a place on.
fn name_ends(name: &[u8; 64], len: u16) -> bool
    ensures { IsTrue result ↔ ZeroIn len 64 (places name.now) }
{
    len >= 64 || first_nonzero(name, len as usize, 64).is_none()
}

/// Whether what an entry says is in its ranges.
fn is_entry(w: &Row, names: Span, e: &Dirent) -> bool
    ensures { IsTrue result ↔ IsEntry w.now names e.now }
{
    in_span(names, e.len as u64)
        && (e.target == 1 || e.target == 2)
        && e.number > 0
        && e.number < INODE_END
        && name_ends(&e.name, inline_len(w, e.len))
}

/// Whether there is an entry exactly where the kind is one, and what it says is in its ranges.
fn entry_fits(w: &Row, dirent: &Option<Dirent>) -> bool
    ensures { IsTrue result ↔ EntryFits w.now w.now.names dirent.now }
{
    match (w.names, dirent) {
        (None, None) => true,
        (Some(names), Some(e)) => is_entry(w, names, e),
        _ => false,
    }
}

/// The number of the method of a check.
pub fn method_number(check: Check) -> u8
    ensures number { result ≡ method_number check }
    ensures stored { IsStored check }
{
    method_row(method_of(check)).number
}

/// Whether a reference is allowed by a row.
fn fits_row(w: &Row, r: &Ref) -> bool
    requires { IsLimited w.now }
    ensures { IsTrue result ↔ FitsRow w.now r.now }
{
    is_method_of(w.methods, method_number(r.check))
        && r.radix == w.radix
        && place_fits(w.radix, r.place)
        && key_fits(w, r.keybits, r.key)
        && in_span(w.ids, r.id)
        && entry_fits(w, &r.dirent)
}

/// Whether the row of its kind and method holds.
pub fn is_valid(r: &Ref) -> bool
    ensures { IsTrue result ↔ IsValid r.now }
{
    fits_row(row_of(r.kind, method_number(r.check)), r)
}
