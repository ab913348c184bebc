ghost use Rattle.std.specs.Prelude.{◌≡◌, ◌↔◌, ◌<◌, ◌+◌, ◌%◌, ℕ, Contains, IsTrue, MatchOption, MatchResult};
ghost use Rattle.h2_dirkey.specs.Name.{IsName, IsFaultOf};
ghost use Rattle.h2_dirkey.specs.Key.{least_key, IsNameUnder, IsPicked, AreAllUsed};
ghost use Rattle.h2_dirkey.specs.Marks.{IsMarked};

use crate::marks::{MARKS, Marks};
use crate::name::check_name;
use crate::name_fault::NameFault;
use h2_check::xxh64;

/// Bit 63, which every key of a directory's entry has.
const ENTRY_BIT: u64 = 1 << 63;

/// How many keys have the same upper bits: the low 15 bits tell names whose upper bits are equal apart.
const COLLISIONS: u64 = 1 << 15;

/// The least key of a name: its XXH64 with bit 63 set and the low 15 bits cleared. The error is what
/// `check_name` finds wrong with the name.
pub fn key_of(name: &[u8]) -> Result<u64, NameFault>
    ensures { MatchResult result (λ key. IsName name.now × (key ≡ least_key name.now))
        (λ fault. IsFaultOf name.now fault) }
{
    check_name(name)?;
    let hash = xxh64(name) | ENTRY_BIT;
    Ok(hash / COLLISIONS * COLLISIONS)
}

/// Whether an entry with the name may stand under the key: the name is good, and the key has the upper bits
/// of its keys.
pub fn is_key_of(key: u64, name: &[u8]) -> bool
    ensures { IsTrue result ↔ IsNameUnder key name.now }
{
    let Ok(least) = key_of(name) else {
        return false;
    };
    key / COLLISIONS == least / COLLISIONS
}

/// Marks each of the used keys that has the upper bits of `key`, at its low 15 bits.
fn marks_of(key: u64, used: &[u64]) -> Marks
    requires { key % 32768 ≡ 0 }
    ensures { (k : ℕ) → k < 32768 → IsMarked result.words k ↔ Contains used.now (key + k) }
{
    let mut marks = Marks::new();
    for other in used {
        if *other >= key && *other - key < COLLISIONS {
            marks.mark((*other - key) as usize);
        }
    }
    marks
}

/// The least key `key + c` with `c` below 32768 that isn't among the used ones, in time linear in their
/// number; they needn't be sorted. None exactly where all 32768 are used. The low 15 bits of `key` are 0.
pub fn pick(key: u64, used: &[u64]) -> Option<u64>
    requires { key % 32768 ≡ 0 }
    ensures { MatchOption result (AreAllUsed key used.now) (IsPicked key used.now) }
{
    let marks = marks_of(key, used);
    for c in 0..MARKS {
        if !marks.is_marked(c) {
            return Some(key + c as u64);
        }
    }
    None
}
