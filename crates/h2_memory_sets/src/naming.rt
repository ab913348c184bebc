//! Names of directories' entries.
ghost use Rattle.std.specs.Prelude.{◌≡◌, ◌<◌, ◌≤◌, ◌-◌, ◌⊎◌, ◌∷◌, take, length, Some, None, IfOk, IfSome, IfNone, OnOk, OnErr};
ghost use Rattle.std.specs.List.{position};
ghost use Rattle.h2_memory_sets.specs.Names.{is_name_at, name_in};

use crate::judging::is_due;
use h2_num::{Bytes, NoMemory};
use h2_ref::Dirent;
use std::alloc::Global;

/// A name that has a block of its own.
#[derive(Drop)]
pub(crate) struct LongName {
    /// The place of the block.
    pub place: u64,
    pub name: Bytes,
}

/// The name that an entry of a directory has in itself; None where there is none.
pub(crate) fn inline_name(alloc: Global, entry: Dirent) -> Result<Option<Bytes>, NoMemory>
    ensures some { IfOk result (λ o. IfSome o (λ b. b ≡ take entry.len entry.name)) }
    ensures len { IfOk result (λ o. IfSome o (λ b. length b ≡ entry.len)) }
    ensures none { IfOk result (λ o. IfNone o (64 < entry.len)) }
    ensures short { IfOk result (λ o. IfSome o (λ b. entry.len ≤ 64)) }
    ensures err { OnErr result (entry.len ≤ 64) }
{
    let all = entry.name.as_slice();
    if entry.len as usize > all.len() {
        return Ok(None);
    }
    let (name, _) = all.split_at(entry.len as usize);
    let bytes = Bytes::from_slice(alloc, name)?;
    Ok(Some(bytes))
}

// Whether a name of this length has the block at a place.
fn is_name_at(x: &LongName, place: u64, len: u16) -> bool
    ensures { result ≡ is_name_at place len x.now }
{
    x.place == place && x.name.as_slice().len() == len as usize
}

// Which name it is.
fn find_place(names: &[LongName], place: u64, len: u16) -> Option<usize>
    ensures { result ≡ position (is_name_at place len) names.now }
{
    names.iter().position(|x| is_name_at(x, place, len))
}

// The name of this length in the block at a place.
fn find_name(names: &[LongName], place: u64, len: u16) -> Option<&Bytes>
    ensures found { IfSome result (λ b. name_in names.now place len ≡ Some b.now) }
    ensures len { IfSome result (λ b. length b.now ≡ len) }
    ensures none { IfNone result (name_in names.now place len ≡ None) }
{
    let i = find_place(names, place, len)?;
    Some(&names[i].name)
}

/// The name of this length in the block at a place, unless this load is the one that meets a bad block.
pub(crate) fn find_unspoiled_name<'a>(
    names: &'a [LongName],
    place: u64,
    len: u16,
    spoiled: &mut u64,
) -> Option<&'a Bytes>
    ensures found { IfSome result (λ b. name_in names.now place len ≡ Some b.now) }
    ensures len { IfSome result (λ b. length b.now ≡ len) }
    ensures none { IfNone result ((spoiled.old ≡ 1) ⊎ (name_in names.now place len ≡ None)) }
    ensures spoiled { spoiled.old ≡ 1 → IfSome result (λ b. ⊥) }
    ensures counts { spoiled.new ≡ spoiled.old - 1 }
{
    if is_due(spoiled) {
        return None;
    }
    find_name(names, place, len)
}

/// Adds a name, which is found before those that were there. After a refusal nothing has changed.
pub(crate) fn add_long_name(
    names: &mut Vec<LongName>,
    place: u64,
    name: Bytes,
) -> Result<(), NoMemory>
    ensures added { OnOk result (names.new.items ≡ record { place = place; name = name } ∷ names.old.items) }
    ensures err { OnErr result (names.new.items ≡ names.old.items) }
{
    match names.insert(0, LongName { place, name }) {
        Ok(()) => Ok(()),
        Err(_) => Err(NoMemory),
    }
}
