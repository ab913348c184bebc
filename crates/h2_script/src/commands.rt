ghost use Rattle.std.specs.Prelude.{map, MatchResult};
ghost use Rattle.h2_script.specs.Commands.{IsCommand, SpellsCommand, IsFaultOfArguments, IsFaultOfCommand};
ghost use Rattle.h2_script.specs.Refusals.{RefusedBy};

use crate::arguments::{
    handle_and_data, handle_and_range, handle_and_size, no_argument, one_entry, one_handle,
    one_name, one_path, two_entries, two_names,
};
use crate::fault::{LineFault, Refusal};
use crate::verb::{Verb, read_verb};
use h2_command::Command;
use std::alloc::Global;

// What the verb and the words after it are.
fn read_arguments(alloc: Global, verb: Verb, words: &[&str]) -> Result<Command, Refusal>
    ensures { MatchResult result (IsCommand verb (map (λ word. word.now) words.now))
        (RefusedBy (IsFaultOfArguments verb (map (λ word. word.now) words.now))) }
{
    match verb {
        Verb::Mkdir => Ok(Command::Mkdir(one_entry(alloc, words)?)),
        Verb::Create => Ok(Command::Create(one_entry(alloc, words)?)),
        Verb::Link => {
            let (path, other) = two_entries(alloc, words)?;
            Ok(Command::Link(path, other))
        }
        Verb::Rm => Ok(Command::Rm(one_entry(alloc, words)?)),
        Verb::Rmdir => Ok(Command::Rmdir(one_entry(alloc, words)?)),
        Verb::Mv => {
            let (path, other) = two_entries(alloc, words)?;
            Ok(Command::Mv(path, other))
        }
        Verb::Ls => Ok(Command::Ls(one_path(alloc, words)?)),
        Verb::Stat => Ok(Command::Stat(one_path(alloc, words)?)),
        Verb::Open => Ok(Command::Attach(one_path(alloc, words)?)),
        Verb::Close => Ok(Command::Close(one_handle(words)?)),
        Verb::Read => {
            let (handle, off, len) = handle_and_range(words)?;
            Ok(Command::ReadAt { handle, off, len })
        }
        Verb::Write => {
            let (handle, off, payload) = handle_and_data(alloc, words)?;
            Ok(Command::WriteAt {
                handle,
                off,
                payload,
            })
        }
        Verb::Cut => {
            let (handle, size) = handle_and_size(words)?;
            Ok(Command::Cut { handle, size })
        }
        Verb::Sync => no_argument(words).map(|_| Command::Sync),
        Verb::Bulkfree => no_argument(words).map(|_| Command::Bulkfree),
        Verb::Snapshot => {
            let (source, name) = two_names(alloc, words)?;
            Ok(Command::Snapshot { source, name })
        }
        Verb::PfsCreate => Ok(Command::PfsCreate(one_name(alloc, words)?)),
        Verb::PfsDelete => Ok(Command::PfsDelete(one_name(alloc, words)?)),
        Verb::PfsList => no_argument(words).map(|_| Command::PfsList),
    }
}

/// The command that the words are.
pub fn read_command(alloc: Global, words: &[&str]) -> Result<Command, Refusal>
    ensures { MatchResult result (SpellsCommand (map (λ word. word.now) words.now))
        (RefusedBy (IsFaultOfCommand (map (λ word. word.now) words.now))) }
{
    let [verb, arguments @ ..] = words else {
        return Err(Refusal::Fault(LineFault::Word));
    };
    let Some(verb) = read_verb(verb) else {
        return Err(Refusal::Fault(LineFault::Word));
    };
    read_arguments(alloc, verb, arguments)
}
