ghost use Rattle.std.specs.Prelude.{◌≡◌, ◌≤◌, ◌-◌, ◌++◌, replicate, length, Some, None};
ghost use Rattle.h2_dir.specs.Changing.{entry_ref};

use h2_num::{Block, put_bytes};
use h2_ref::{Check, Dirent, Kind, Ref};

/// The bytes that a name may have in its entry.
const AREA_BYTES: usize = 64;

// The name and then zeros.
fn area_of(name: &[u8]) -> [u8; AREA_BYTES]
    requires { length name.now ≤ 64 }
    ensures { result ≡ name.now ++ replicate (64 - length name.now) 0 }
{
    let mut area = [0; AREA_BYTES];
    put_bytes(&mut area, 0, name);
    area
}

// An entry whose name stands in it.
fn short_ref(epoch: u64, key: u64, name: &[u8], number: u64, target: u8) -> Ref
    requires { length name.now ≤ 64 }
    ensures { result ≡ entry_ref epoch key name.now None number target }
{
    Ref {
        kind: Kind::Dirent,
        key,
        keybits: 0,
        place: 0,
        radix: 0,
        id: epoch,
        check: Check::Nothing,
        dirent: Some(Dirent {
            number,
            len: name.len() as u16,
            target,
            name: area_of(name),
        }),
    }
}

/// The reference of an entry, which `add_at` puts in: its name stands in it, or in a block with this check. The epoch is
/// its id. The name has at most 255 bytes, and without a block at most 64.
pub fn entry_ref(
    epoch: u64,
    key: u64,
    name: &[u8],
    block: Option<(Block, Check)>,
    number: u64,
    target: u8,
) -> Ref
    requires few { length name.now ≤ 255 }
    requires short { block ≡ None → length name.now ≤ 64 }
    ensures { result ≡ entry_ref epoch key name.now block number target }
{
    let Some((block, check)) = block else {
        return short_ref(epoch, key, name, number, target);
    };
    Ref {
        kind: Kind::Dirent,
        key,
        keybits: 0,
        place: block.place,
        radix: block.radix,
        id: epoch,
        check,
        dirent: Some(Dirent {
            number,
            len: name.len() as u16,
            target,
            name: [0; AREA_BYTES],
        }),
    }
}
