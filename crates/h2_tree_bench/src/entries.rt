//! Entries of a directory, whose keys look like chance.
ghost use Rattle.std.specs.Prelude.{◌≡◌, ◌≤◌, ◌<◌, ◌^◌};
ghost use Rattle.h2_ref.specs.declared.reference.Kind.TheVariants.{Dirent as Dirent_kind};

use h2_ref::{Check, Dirent, Kind, Ref};

/// The least key of a directory's entries.
const ENTRY_KEYS: u64 = 1 << 63;

/// The epoch of what is made.
pub const EPOCH: u64 = 5;

/// The odd number by which keys are spread: 2^64 over the golden ratio, as in SplitMix64.
const SPREAD: u64 = 0x9e37_79b9_7f4a_7c15;

/// Number `i + 1` of SplitMix64 from zero on, which look like chance.
fn scattered(i: u32) -> u64 {
    let z = (i as u64 + 1).wrapping_mul(SPREAD);
    let z = (z ^ (z >> 30)).wrapping_mul(0xbf58_476d_1ce4_e5b9);
    let z = (z ^ (z >> 27)).wrapping_mul(0x94d0_49bb_1331_11eb);
    z ^ (z >> 31)
}

/// The key of entry number `i`.
pub fn key_of(i: u32) -> u64
    ensures { (2 ^ 63 ≤ result) × (result < 2 ^ 64) }
{
    ENTRY_KEYS + scattered(i) / 2
}

/// Entry number `i`, with a name of one byte.
pub fn entry(i: u32) -> Ref
    ensures kind { result.kind ≡ Dirent_kind }
    ensures low { 2 ^ 63 ≤ result.key }
    ensures high { result.key < 2 ^ 64 }
    ensures keybits { result.keybits ≡ 0 }
{
    let mut name = [0; 64];
    name[0] = b'x';
    Ref {
        kind: Kind::Dirent,
        key: key_of(i),
        keybits: 0,
        place: 0,
        radix: 0,
        id: EPOCH,
        check: Check::Nothing,
        dirent: Some(Dirent {
            number: i as u64 + 1,
            len: 1,
            target: 2,
            name,
        }),
    }
}

/// The number of the inode that an entry names.
pub fn number_of(r: &Ref) -> u64 {
    match &r.dirent {
        Some(entry) => entry.number,
        None => 0,
    }
}

/// Joins a word to those before it, so that each of them tells in the result.
pub fn join(joined: u64, word: u64) -> u64 {
    joined.rotate_left(5).wrapping_mul(SPREAD) ^ word
}
