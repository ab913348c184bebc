ghost use Rattle.std.specs.Prelude.{◌≡◌, ◌+◌, ◌-◌};
ghost use Rattle.h2_num.specs.Places.{number_at, places, SameOutside, ZeroIn};
ghost use Rattle.h2_ref.specs.Methods.{check_value};
ghost use Rattle.h2_ref.specs.Ref.{area_len, check_len, fields_end, EntryBytes, IsValid, NameBytes, RefBytes, row};

use crate::flags::RefFlags;
use crate::layout::{
    AREA_AT, FLAGS_AT, ID_AT, KEY_AT, KEYBITS_AT, KIND_AT, LEN_AT, METHOD_AT, NUMBER_AT, PLACE_AT,
    REF_BYTES, TARGET_AT,
};
use crate::methods::check_over_zeros;
use crate::reference::{Dirent, Ref};
use crate::rules::method_number;
use crate::table::{Row, row_of};
use bitflags::Flags;
use h2_num::{put_bytes, put8, put16, put64};

/// The check area of a valid reference, over zeros: the name of an entry that has it, else the check.
fn area_over_zeros(r: &Ref, w: &Row) -> [u8; REF_BYTES]
    requires row { w.now ≡ row r.now }
    requires valid { IsValid r.now }
    ensures front { ZeroIn 0 64 (places result) }
    ensures check { number_at (places result) 64 (check_len r.now.check) ≡ check_value r.now.check }
    ensures name { NameBytes (row r.now) r.now.dirent (places result) }
    ensures tail { ZeroIn (64 + area_len (row r.now) r.now.check r.now.dirent) 128 (places result) }
{
    let mut b = check_over_zeros(r.check);
    if let Some(e) = &r.dirent {
        if w.flags == RefFlags::INLINE {
            put_bytes(&mut b, AREA_AT, &e.name);
        }
    }
    b
}

/// Puts the fields of an entry but for its name, if there is one.
fn put_dirent(dirent: &Option<Dirent>, b: &mut [u8; REF_BYTES])
    ensures fields { EntryBytes dirent.now (places b.new) }
    ensures others { SameOutside 32 (fields_end dirent.now - 32) (places b.old) (places b.new) }
{
    if let Some(e) = dirent {
        put64(b, NUMBER_AT, e.number);
        put16(b, LEN_AT, e.len);
        put8(b, TARGET_AT, e.target);
    }
}

/// The bytes of a valid reference.
pub fn encode(r: &Ref) -> [u8; REF_BYTES]
    requires { IsValid r.now }
    ensures { RefBytes r.now (places result) }
{
    let method = method_number(r.check);
    let w = row_of(r.kind, method);
    let mut b = area_over_zeros(r, w);
    put_dirent(&r.dirent, &mut b);
    put8(&mut b, KIND_AT, w.number);
    put8(&mut b, METHOD_AT, method);
    put8(&mut b, KEYBITS_AT, r.keybits);
    put8(&mut b, FLAGS_AT, w.flags.bits());
    put64(&mut b, KEY_AT, r.key);
    put64(&mut b, PLACE_AT, r.place + r.radix as u64);
    put64(&mut b, ID_AT, r.id);
    b
}
