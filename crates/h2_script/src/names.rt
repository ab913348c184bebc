ghost use Rattle.std.specs.Prelude.{◌↔◌, ◌≡◌, IsTrue, IfOk, All, MatchResult, map, ◌==◌};
ghost use Rattle.std.specs.List.{slice_split};
ghost use Rattle.h2_dirkey.specs.Name.{IsDots};
ghost use Rattle.h2_script.specs.Names.{IsNameByte, IsEntryName, SpellsNames, AreNoNames};
ghost use Rattle.h2_script.specs.Refusals.{RefusedBy};
ghost use Rattle.h2_script.specs.declared.fault.LineFault.{LineFault};

use crate::fault::{LineFault, Refusal};
use h2_num::{Name, Names};
use std::alloc::{AllocError, Global};

/// The greatest length of a name, in bytes.
const NAME_BYTES: usize = 255;

fn is_name_byte(byte: u8) -> bool
    ensures { IsTrue result ↔ IsNameByte byte }
{
    byte > b' ' && byte != b'/' && byte != 127
}

fn are_name_bytes(bytes: &[u8]) -> bool
    ensures { IsTrue result ↔ All IsNameByte bytes.now }
{
    for byte in bytes {
        if !is_name_byte(*byte) {
            return false;
        }
    }
    true
}

fn is_dots(name: &[u8]) -> bool
    ensures { IsTrue result ↔ IsDots name.now }
{
    matches!(name, b"." | b"..")
}

/// Whether the bytes are a name in a path of a script.
pub fn is_entry_name(name: &[u8]) -> bool
    ensures { IsTrue result ↔ IsEntryName name.now }
{
    if name.is_empty() {
        return false;
    }
    if name.len() > NAME_BYTES {
        return false;
    }
    if is_dots(name) {
        return false;
    }
    are_name_bytes(name)
}

/// The parts of the text between slashes.
fn split_at_slashes(alloc: Global, text: &[u8]) -> Result<Vec<&[u8]>, AllocError>
    ensures { IfOk result (λ parts. map (λ part. part.now) parts.items ≡ slice_split (λ b. b == 47) text.now) }
{
    text.split(|byte| *byte == b'/').collect(alloc)
}

/// The parts as names, where each is one.
fn copy_names(alloc: Global, parts: &[&[u8]]) -> Result<Names, Refusal>
    ensures { MatchResult result
        (λ names. (names ≡ map (λ part. part.now) parts.now) × All IsEntryName names)
        (RefusedBy (λ why. (why ≡ LineFault.Path) × (All IsEntryName (map (λ part. part.now) parts.now) → ⊥))) }
{
    let mut names = Names::new(alloc);
    for part in parts {
        if !is_entry_name(part) {
            return Err(Refusal::Fault(LineFault::Path));
        }
        names.push(Name::from_slice(alloc, part)?)?;
    }
    Ok(names)
}

/// The names that the text is, with a slash between each two; no name where it has no byte.
pub fn read_names(alloc: Global, text: &[u8]) -> Result<Names, Refusal>
    ensures { MatchResult result (SpellsNames text.now)
        (RefusedBy (λ why. (why ≡ LineFault.Path) × AreNoNames text.now)) }
{
    if text.is_empty() {
        return Ok(Names::new(alloc));
    }
    let parts = split_at_slashes(alloc, text)?;
    copy_names(alloc, &parts)
}
