ghost use Rattle.std.specs.Prelude.{◌≡◌, ◌≤◌, ◌+◌, ◌*◌, All, codes, length};
ghost use Rattle.h2_num.specs.Places.{places, number_at, from_place, SameOutside, SameBelow, ZeroIn};
ghost use Rattle.h2_ref.specs.Ref.{IsValid, RefBytes};
ghost use Rattle.h2_ref.specs.Set.{RefsBytes};
ghost use Rattle.h2_header.specs.Header.{IsHeader, NumberBytes, HeadBytes};

use crate::header::Header;
use crate::layout::{
    CHECK_AT, MAGIC, MAGIC_AT, MAP_AT, MAP_NUMBER_AT, NEXT_PFS_AT, NUMBER_AT, ROOT_AT, VERSION,
    VERSION_AT, ZONES_AT, check_of,
};
use h2_num::{clear, put_bytes, put32, put64};
use h2_ref::{REF_BYTES, Ref, encode};

/// Puts the fields before the references.
fn put_numbers(h: &Header, out: &mut [u8])
    requires { 40 ≤ length out.old }
    ensures magic { SameBelow 8 (places (codes "H2VOLUME")) (places out.new) }
    ensures version { number_at (places out.new) 8 4 ≡ 1 }
    ensures numbers { NumberBytes h.now (places out.new) }
    ensures others { SameOutside 0 40 (places out.old) (places out.new) }
{
    put_bytes(out, MAGIC_AT, MAGIC);
    put32(out, VERSION_AT, VERSION);
    put32(out, ZONES_AT, h.zones);
    put64(out, NUMBER_AT, h.number);
    put64(out, MAP_NUMBER_AT, h.map_number);
    put64(out, NEXT_PFS_AT, h.next_pfs);
}

/// Puts a reference at a place.
fn put_ref(r: &Ref, at: usize, out: &mut [u8])
    requires valid { IsValid r.now }
    requires room { at + 128 ≤ length out.old }
    ensures bytes { RefBytes r.now (from_place (places out.new) at) }
    ensures others { SameOutside at 128 (places out.old) (places out.new) }
{
    put_bytes(out, at, &encode(r));
}

/// Puts references one after the other, from a place on.
fn put_refs(refs: &[Ref], at: usize, out: &mut [u8])
    requires valid { All IsValid refs.now }
    requires room { at + 128 * length refs.now ≤ length out.old }
    ensures bytes { RefsBytes refs.now (from_place (places out.new) at) }
    ensures others { SameOutside at (128 * length refs.now) (places out.old) (places out.new) }
{
    for (i, r) in refs.iter().enumerate() {
        put_ref(r, at + REF_BYTES * i, out);
    }
}

/// Writes the block of a header: all 65536 bytes of `out`.
pub fn write_into(h: &Header, out: &mut [u8])
    requires size { length out.old ≡ 65536 }
    requires valid { IsHeader h.now }
    ensures { HeadBytes h.now (places out.new) }
{
    clear(out);
    put_numbers(h, out);
    put_refs(&h.root, ROOT_AT, out);
    put_refs(&h.map, MAP_AT, out);
    let check = check_of(out);
    put32(out, CHECK_AT, check);
}
