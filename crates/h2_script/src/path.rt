ghost use Rattle.std.specs.Prelude.{◌≡◌, ◌∷◌, ◌++◌, MatchResult, MatchOption};
ghost use Rattle.h2_script.specs.Cuts.{colon};
ghost use Rattle.h2_script.specs.Paths.{SpellsPath, SpellsEntryPath, IsNoPath, IsNoEntryPath, BeginsWithSlash};
ghost use Rattle.h2_script.specs.Refusals.{RefusedBy};
ghost use Rattle.h2_script.specs.declared.fault.LineFault.{LineFault};
ghost use Rattle.h2_dirkey.specs.PfsName.{IsPfsName};

use crate::cut::cut_at_colon;
use crate::fault::{LineFault, Refusal};
use crate::names::read_names;
use h2_command::{Path, is_pfs_name};
use h2_num::Name;
use std::alloc::Global;

// What follows the slash that the text begins with.
fn after_slash(text: &[u8]) -> Option<&[u8]>
    ensures { MatchOption result (BeginsWithSlash text.now → ⊥) (λ rest. text.now ≡ 47 ∷ rest.now) }
{
    match text {
        [b'/', rest @ ..] => Some(rest),
        _ => None,
    }
}

/// The PFS's name that the word is.
pub fn read_pfs_name(alloc: Global, word: &str) -> Result<Name, Refusal>
    ensures { MatchResult result (λ name. (name ≡ word.now) × IsPfsName word.now)
        (RefusedBy (λ why. (why ≡ LineFault.Path) × (IsPfsName word.now → ⊥))) }
{
    if !is_pfs_name(word.as_bytes()) {
        return Err(Refusal::Fault(LineFault::Path));
    }
    Ok(Name::from_slice(alloc, word.as_bytes())?)
}

/// The path that the word is.
pub fn read_path(alloc: Global, word: &str) -> Result<Path, Refusal>
    ensures { MatchResult result (SpellsPath word.now)
        (RefusedBy (λ why. (why ≡ LineFault.Path) × IsNoPath word.now)) }
{
    let Some((pfs, rest)) = cut_at_colon(word) else {
        return Err(Refusal::Fault(LineFault::Path));
    };
    let Some(names) = after_slash(rest.as_bytes()) else {
        return Err(Refusal::Fault(LineFault::Path));
    };
    let pfs = read_pfs_name(alloc, pfs)?;
    let names = read_names(alloc, names)?;
    Ok(Path { pfs, names })
}

/// The path that the word is, where it has a name.
pub fn read_entry_path(alloc: Global, word: &str) -> Result<Path, Refusal>
    ensures { MatchResult result (SpellsEntryPath word.now)
        (RefusedBy (λ why. (why ≡ LineFault.Path) × IsNoEntryPath word.now)) }
{
    let path = read_path(alloc, word)?;
    if path.names.items().is_empty() {
        return Err(Refusal::Fault(LineFault::Path));
    }
    Ok(path)
}
