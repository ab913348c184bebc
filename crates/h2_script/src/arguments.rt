ghost use Rattle.std.specs.Prelude.{◌≡◌, ◌↔◌, ◌⊎◌, ◌<◌, ◌^◌, ℕ, [], ◌∷◌, map, IsTrue, MatchOption, MatchResult};
ghost use Rattle.h2_script.specs.Arguments.{IsNumberBelow, OneEntry, TwoEntries, OnePath, OneName, TwoNames, OneHandle, HandleAndSize, HandleAndRange, HandleAndData, IsFaultOfWords, NameTwoPfss, AsksTooMuch, WritesTooMuch};
ghost use Rattle.h2_script.specs.Verbs.{EntryPath, AnyPath, PfsName, Handle, Place, Length, Datum};
ghost use Rattle.h2_script.specs.Refusals.{RefusedBy};

use crate::fault::{LineFault, Refusal};
use crate::number::{Amount, Number, parse_number, read_amount};
use crate::path::{read_entry_path, read_path, read_pfs_name};
use crate::payload::read_payload;
use h2_command::{Path, Payload};
use h2_num::Name;
use std::alloc::Global;

fn are_equal(name: &Name, other: &Name) -> bool
    ensures { IsTrue result ↔ (name.now ≡ other.now) }
{
    *name == *other
}

// The number below 2^64 that the word is.
fn read_place(word: &str) -> Option<u64>
    ensures { MatchOption result ((n : ℕ) → IsNumberBelow (2 ^ 64) word.now n → ⊥) (IsNumberBelow (2 ^ 64) word.now) }
{
    let Some(Number::Small(place)) = parse_number(word) else {
        return None;
    };
    Some(place)
}

// The number below 2^32 that the word is.
fn read_handle(word: &str) -> Option<u32>
    ensures { MatchOption result ((n : ℕ) → IsNumberBelow (2 ^ 32) word.now n → ⊥) (IsNumberBelow (2 ^ 32) word.now) }
{
    let Some(Number::Small(handle)) = parse_number(word) else {
        return None;
    };
    if handle > u32::MAX as u64 {
        return None;
    }
    Some(handle as u32)
}

/// No argument.
pub fn no_argument(words: &[&str]) -> Result<(), Refusal>
    ensures { MatchResult result (λ _. map (λ word. word.now) words.now ≡ [])
        (RefusedBy (IsFaultOfWords [] (map (λ word. word.now) words.now))) }
{
    match words {
        [] => Ok(()),
        _ => Err(Refusal::Fault(LineFault::Word)),
    }
}

/// One path that leads to an entry.
pub fn one_entry(alloc: Global, words: &[&str]) -> Result<Path, Refusal>
    ensures { MatchResult result (OneEntry (map (λ word. word.now) words.now))
        (RefusedBy (IsFaultOfWords (EntryPath ∷ []) (map (λ word. word.now) words.now))) }
{
    let [path] = words else {
        return Err(Refusal::Fault(LineFault::Word));
    };
    read_entry_path(alloc, path)
}

/// Two paths that lead to entries in one PFS.
pub fn two_entries(alloc: Global, words: &[&str]) -> Result<(Path, Path), Refusal>
    ensures { MatchResult result (λ paths. TwoEntries (map (λ word. word.now) words.now) paths.0 paths.1)
        (RefusedBy (λ why. IsFaultOfWords (EntryPath ∷ EntryPath ∷ []) (map (λ word. word.now) words.now) why
        ⊎ NameTwoPfss (map (λ word. word.now) words.now) why)) }
{
    let [path, other] = words else {
        return Err(Refusal::Fault(LineFault::Word));
    };
    let path = read_entry_path(alloc, path)?;
    let other = read_entry_path(alloc, other)?;
    if !are_equal(&other.pfs, &path.pfs) {
        return Err(Refusal::Fault(LineFault::Path));
    }
    Ok((path, other))
}

/// One path.
pub fn one_path(alloc: Global, words: &[&str]) -> Result<Path, Refusal>
    ensures { MatchResult result (OnePath (map (λ word. word.now) words.now))
        (RefusedBy (IsFaultOfWords (AnyPath ∷ []) (map (λ word. word.now) words.now))) }
{
    let [path] = words else {
        return Err(Refusal::Fault(LineFault::Word));
    };
    read_path(alloc, path)
}

/// The name of a PFS.
pub fn one_name(alloc: Global, words: &[&str]) -> Result<Name, Refusal>
    ensures { MatchResult result (OneName (map (λ word. word.now) words.now))
        (RefusedBy (IsFaultOfWords (PfsName ∷ []) (map (λ word. word.now) words.now))) }
{
    let [name] = words else {
        return Err(Refusal::Fault(LineFault::Word));
    };
    read_pfs_name(alloc, name)
}

/// The names of two PFSs.
pub fn two_names(alloc: Global, words: &[&str]) -> Result<(Name, Name), Refusal>
    ensures { MatchResult result (λ names. TwoNames (map (λ word. word.now) words.now) names.0 names.1)
        (RefusedBy (IsFaultOfWords (PfsName ∷ PfsName ∷ []) (map (λ word. word.now) words.now))) }
{
    let [name, other] = words else {
        return Err(Refusal::Fault(LineFault::Word));
    };
    let name = read_pfs_name(alloc, name)?;
    let other = read_pfs_name(alloc, other)?;
    Ok((name, other))
}

/// A handle.
pub fn one_handle(words: &[&str]) -> Result<u32, Refusal>
    ensures { MatchResult result (OneHandle (map (λ word. word.now) words.now))
        (RefusedBy (IsFaultOfWords (Handle ∷ []) (map (λ word. word.now) words.now))) }
{
    let [handle] = words else {
        return Err(Refusal::Fault(LineFault::Word));
    };
    let Some(handle) = read_handle(handle) else {
        return Err(Refusal::Fault(LineFault::Number));
    };
    Ok(handle)
}

/// A handle and a size in bytes.
pub fn handle_and_size(words: &[&str]) -> Result<(u32, u64), Refusal>
    ensures { MatchResult result (λ parts. HandleAndSize (map (λ word. word.now) words.now) parts.0 parts.1)
        (RefusedBy (IsFaultOfWords (Handle ∷ Place ∷ []) (map (λ word. word.now) words.now))) }
{
    let [handle, size] = words else {
        return Err(Refusal::Fault(LineFault::Word));
    };
    let Some(handle) = read_handle(handle) else {
        return Err(Refusal::Fault(LineFault::Number));
    };
    let Some(size) = read_place(size) else {
        return Err(Refusal::Fault(LineFault::Number));
    };
    Ok((handle, size))
}

/// A handle, a place in the file and a number of bytes.
pub fn handle_and_range(words: &[&str]) -> Result<(u32, u64, u32), Refusal>
    ensures { MatchResult result (λ parts. HandleAndRange (map (λ word. word.now) words.now) parts.0 parts.1 parts.2)
        (RefusedBy (λ why. IsFaultOfWords (Handle ∷ Place ∷ Length ∷ []) (map (λ word. word.now) words.now) why
        ⊎ AsksTooMuch (map (λ word. word.now) words.now) why)) }
{
    let [handle, off, len] = words else {
        return Err(Refusal::Fault(LineFault::Word));
    };
    let Some(handle) = read_handle(handle) else {
        return Err(Refusal::Fault(LineFault::Number));
    };
    let Some(off) = read_place(off) else {
        return Err(Refusal::Fault(LineFault::Number));
    };
    match read_amount(len) {
        Some(Amount::Few(len)) => Ok((handle, off, len)),
        Some(Amount::Many) => Err(Refusal::Fault(LineFault::TooLong)),
        None => Err(Refusal::Fault(LineFault::Number)),
    }
}

/// A handle, a place in the file and bytes.
pub fn handle_and_data(alloc: Global, words: &[&str]) -> Result<(u32, u64, Payload), Refusal>
    ensures { MatchResult result (λ parts. HandleAndData (map (λ word. word.now) words.now) parts.0 parts.1 parts.2)
        (RefusedBy (λ why. IsFaultOfWords (Handle ∷ Place ∷ Datum ∷ []) (map (λ word. word.now) words.now) why
        ⊎ WritesTooMuch (map (λ word. word.now) words.now) why)) }
{
    let [handle, off, payload] = words else {
        return Err(Refusal::Fault(LineFault::Word));
    };
    let Some(handle) = read_handle(handle) else {
        return Err(Refusal::Fault(LineFault::Number));
    };
    let Some(off) = read_place(off) else {
        return Err(Refusal::Fault(LineFault::Number));
    };
    let payload = read_payload(alloc, payload)?;
    Ok((handle, off, payload))
}
