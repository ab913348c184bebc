ghost use Rattle.std.specs.Prelude.{◌≡◌, IfOk, OnErr};
ghost use Rattle.std.specs.Result.{result_err};
ghost use Rattle.h2_num.specs.Places.{places};
ghost use Rattle.h2_ref.specs.Ref.{IsValid, NoRef, RefBytes};
ghost use Rattle.h2_ref.specs.Fault.{first_fault};
ghost use Rattle.h2_ref.specs.Table.{row_of};
ghost use Rattle.h2_ref.specs.Reading.{dirent_at, name_at, ref_at};

use crate::faults::RefFault;
use crate::flags::RefFlags;
use crate::judging::{fault_by, place_at, radix_at};
use crate::layout::{
    AREA_AT, AREA_BYTES, ID_AT, KEY_AT, KEYBITS_AT, KIND_AT, LEN_AT, METHOD_AT, NUMBER_AT,
    REF_BYTES, TARGET_AT,
};
use crate::methods::check_of;
use crate::reference::{Dirent, Kind, Ref};
use crate::rules::method_in;
use crate::table::{Row, kind_of, row_of};
use h2_num::{get16, get64};

/// The name in the check area, or none.
fn name_at(w: &Row, b: &[u8; REF_BYTES]) -> [u8; AREA_BYTES]
    ensures { result ≡ name_at w.now (places b.now) }
{
    if w.flags != RefFlags::INLINE {
        return [0; AREA_BYTES];
    }
    let Some(area) = b[AREA_AT..].first_chunk::<AREA_BYTES>() else {
        unreachable!();
    };
    *area
}

/// The fields of an entry, if the kind is one.
fn dirent_at(w: &Row, b: &[u8; REF_BYTES]) -> Option<Dirent>
    ensures { result ≡ dirent_at w.now w.now.names (places b.now) }
{
    if w.names.is_none() {
        return None;
    }
    Some(Dirent {
        number: get64(b, NUMBER_AT),
        len: get16(b, LEN_AT),
        target: b[TARGET_AT],
        name: name_at(w, b),
    })
}

/// The reference of a kind, whose row is given, in the bytes.
fn read(kind: Kind, w: &Row, b: &[u8; REF_BYTES]) -> Ref
    requires { w.now ≡ row_of kind (places b.now 1) }
    ensures { result ≡ ref_at kind (places b.now) }
{
    Ref {
        kind,
        key: get64(b, KEY_AT),
        keybits: b[KEYBITS_AT],
        place: place_at(b),
        radix: radix_at(b),
        id: get64(b, ID_AT),
        check: check_of(method_in(w.methods, b[METHOD_AT]), b),
        dirent: dirent_at(w, b),
    }
}

/// The valid reference that the bytes spell.
///
/// # Errors
/// Exactly where they spell none: the first refusal of the order `Kind`, `Method`, `Padding(3)` for a wrong
/// flag, `Radix`, `Place`, `Key`, `Id`, `Dirent`, `Padding` at the first nonzero byte that must be zero.
pub fn decode(b: &[u8; REF_BYTES]) -> Result<Ref, RefFault>
    ensures found { IfOk result (λ r. IsValid r × RefBytes r (places b.now)) }
    ensures fault { result_err result ≡ first_fault (places b.now) }
    ensures none { OnErr result (NoRef (places b.now)) }
{
    let Some(kind) = kind_of(b[KIND_AT]) else {
        return Err(RefFault::Kind(b[KIND_AT]));
    };
    let w = row_of(kind, b[METHOD_AT]);
    match fault_by(w, b) {
        Some(fault) => Err(fault),
        None => Ok(read(kind, w, b)),
    }
}
