ghost use Rattle.std.specs.Prelude.{◌≡◌, ◌≤◌, ◌⊎◌, ℕ, List, true, false, Some, IfOk, IfErr, OnOk, All, take, length};
ghost use Rattle.h2_ref.specs.Ref.{IsValid};
ghost use Rattle.h2_ref.specs.declared.reference.Ref.{Ref};
ghost use Rattle.h2_set.specs.Forest.{IsSound};
ghost use Rattle.h2_set.specs.Calls.{IsBad, Unchanged, HasCause, MeetsNone, MeetsOnly, KeepsBeside};
ghost use Rattle.h2_dir.specs.Names.{IsEntryNamed, MayBeNamed, AllNamed, IsLongCandidate, AnyLongCandidate, Scanned};

use h2_ref::{Dirent, Ref, Trouble};
use h2_set::Sets;
use std::alloc::Global;

/// The most bytes of a name that stands in its entry.
const SHORT_NAME_BYTES: usize = 64;

// Whether the name that stands in an entry is this one, whose length is the entry's.
fn is_short_name(entry: &Dirent, name: &[u8]) -> bool
    requires room { let e = entry.now in length e.name ≡ 64 }
    requires few { length name.now ≤ 64 }
    ensures yes { let e = entry.now in result ≡ true → name.now ≡ take (length name.now) e.name }
    ensures no { let e = entry.now in result ≡ false → name.now ≡ take (length name.now) e.name → ⊥ }
{
    &entry.name[..name.len()] == name
}

/// Whether an entry of a directory has the name. A short name needs no load, nor does one of another length. The block of
/// a name that is told is never bad.
pub(crate) fn has_name<N: Sets>(
    alloc: Global,
    n: &mut N,
    leaf: &Ref,
    name: &[u8],
) -> Result<bool, Trouble>
    requires sound { IsSound (N.forest n.old) }
    requires valid { IsValid leaf.now }
    ensures same { Unchanged (N.forest n.old) (N.forest n.new) }
    ensures yes { IfOk result (λ b. b ≡ true → MayBeNamed (N.forest n.old) leaf.now name.now) }
    ensures no { IfOk result (λ b. b ≡ false → IsEntryNamed (N.forest n.old) leaf.now name.now → ⊥) }
    ensures err { IfErr result (HasCause (N.forest n.old) (N.forest n.new)) }
    ensures none_met { OnOk result (MeetsNone (N.forest n.old) (N.forest n.new)) }
    ensures met_only { IfErr result (MeetsOnly (N.forest n.old) (N.forest n.new)) }
    ensures unread { IfErr result (λ e. (e ≡ Trouble.NoMemory) ⊎ IsLongCandidate leaf.now name.now) }
    ensures good { let f = N.forest n.old in IfErr result (λ e. (own : List ℕ) → IsEntryNamed f leaf.now own → IsBad e → ⊥) }
    ensures beside { KeepsBeside (N.forest n.old) (N.forest n.new) (N.beside n.old) (N.beside n.new) }
    ensures later { N.later n.old n.new }
{
    let Some(entry) = &leaf.dirent else {
        return Ok(false);
    };
    if entry.len as usize != name.len() {
        return Ok(false);
    }
    if name.len() <= SHORT_NAME_BYTES {
        return Ok(is_short_name(entry, name));
    }
    let told = n.name(alloc, leaf)?;
    Ok(told.as_slice() == name)
}

/// The place of the first of the entries that has the name; None exactly where none has it. Entries before it that
/// have a name of more than 64 bytes and of this length are read.
pub(crate) fn scan<N: Sets>(
    alloc: Global,
    n: &mut N,
    leaves: &[Ref],
    name: &[u8],
) -> Result<Option<usize>, Trouble>
    requires sound { IsSound (N.forest n.old) }
    requires valid { All IsValid leaves.now }
    ensures same { Unchanged (N.forest n.old) (N.forest n.new) }
    ensures scanned { IfOk result (Scanned (N.forest n.old) leaves.now name.now) }
    ensures err { IfErr result (HasCause (N.forest n.old) (N.forest n.new)) }
    ensures none_met { OnOk result (MeetsNone (N.forest n.old) (N.forest n.new)) }
    ensures met_only { IfErr result (MeetsOnly (N.forest n.old) (N.forest n.new)) }
    ensures unread { IfErr result (λ e. (e ≡ Trouble.NoMemory) ⊎ AnyLongCandidate leaves.now name.now) }
    ensures good { let f = N.forest n.old in IfErr result (λ e. AllNamed f leaves.now → IsBad e → ⊥) }
    ensures beside { KeepsBeside (N.forest n.old) (N.forest n.new) (N.beside n.old) (N.beside n.new) }
    ensures later { N.later n.old n.new }
{
    for i in 0..leaves.len() {
        if has_name(alloc, n, &leaves[i], name)? {
            return Ok(Some(i));
        }
    }
    Ok(None)
}
