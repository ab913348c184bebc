ghost use Rattle.std.specs.Prelude.{◌≡◌, ◌↔◌, ◌==◌, ◌∷◌, ℕ, List, IsTrue, IfOk, codes, map, take, MatchOption, MatchResult};
ghost use Rattle.std.specs.Str.Lines.{strip_carriage_return};
ghost use Rattle.h2_script.specs.Lines.{IsSkipped, IsClient, IsOfClient, SpellsText, SpellsLine, IsFaultOfText, IsFaultOfLine, words_of};
ghost use Rattle.h2_script.specs.Commands.{SpellsCommand, IsFaultOfCommand};
ghost use Rattle.h2_script.specs.Refusals.{RefusedBy};

use crate::commands::read_command;
use crate::fault::{LineFault, Refusal};
use h2_command::Command;
use std::alloc::{AllocError, Global};

/// How many words of a line are looked at: a client, a command and its three arguments at most, and one more,
/// which tells that there are too many.
const DECIDING_WORDS: usize = 6;

/// What a line of a script is.
#[derive(Drop, Debug)]
pub enum Line {
    /// An empty line or a comment.
    Skipped,
    /// The end of a phase.
    PhaseEnd,
    /// A client, 0 to 7, and its command.
    Call(u32, Command),
}

// The line without a carriage return at its end.
fn without_return(line: &[u8]) -> &[u8]
    ensures { result.now ≡ strip_carriage_return line.now }
{
    match line {
        [text @ .., b'\r'] => text,
        _ => line,
    }
}

fn is_skipped(text: &[u8]) -> bool
    ensures { IsTrue result ↔ IsSkipped text.now }
{
    match text {
        [] => true,
        [b'#', ..] => true,
        _ => false,
    }
}

fn is_phase_end(text: &str) -> bool
    ensures { IsTrue result ↔ (text.now ≡ codes "---") }
{
    match text {
        "---" => true,
        _ => false,
    }
}

// The client whose digit the word is.
fn read_client(word: &[u8]) -> Option<u32>
    ensures { MatchOption result ((client : ℕ) → IsClient word.now client → ⊥) (IsClient word.now) }
{
    let [digit] = word else {
        return None;
    };
    if *digit < b'0' || *digit > b'7' {
        return None;
    }
    Some((*digit - b'0') as u32)
}

fn first_words(alloc: Global, text: &str) -> Result<Vec<&str>, AllocError>
    ensures { IfOk result (λ words. map (λ word. word.now) words.items ≡ take 6 (words_of text.now)) }
{
    text.split(' ').take(DECIDING_WORDS).collect(alloc)
}

// The command of a line, whose first words are given: all of them, or more than a command has.
fn read_front(alloc: Global, words: &[&str]) -> Result<Command, Refusal>
    ensures { (all : List (List ℕ)) → map (λ word. word.now) words.now ≡ take 5 all
        → MatchResult result (SpellsCommand all) (RefusedBy (IsFaultOfCommand all)) }
{
    read_command(alloc, words)
}

// What a client's line is, by its first words.
fn read_words(alloc: Global, words: &[&str]) -> Result<Line, Refusal>
    ensures { (text : List ℕ) → (IsSkipped text → ⊥) → (text ≡ codes "---" → ⊥) → map (λ word. word.now) words.now ≡ take 6 (words_of text)
        → MatchResult result (SpellsText text) (RefusedBy (IsFaultOfText text)) }
{
    let [digit, arguments @ ..] = words else {
        return Err(Refusal::Fault(LineFault::Client));
    };
    let Some(client) = read_client(digit.as_bytes()) else {
        return Err(Refusal::Fault(LineFault::Client));
    };
    let command = read_front(alloc, arguments)?;
    Ok(Line::Call(client, command))
}

fn read_text(alloc: Global, text: &str) -> Result<Line, Refusal>
    ensures { MatchResult result (SpellsText text.now) (RefusedBy (IsFaultOfText text.now)) }
{
    if is_skipped(text.as_bytes()) {
        return Ok(Line::Skipped);
    }
    if is_phase_end(text) {
        return Ok(Line::PhaseEnd);
    }
    let words = first_words(alloc, text)?;
    read_words(alloc, &words)
}

/// What the line is.
pub fn read_line(alloc: Global, line: &[u8]) -> Result<Line, Refusal>
    ensures { MatchResult result (SpellsLine line.now) (RefusedBy (IsFaultOfLine line.now)) }
{
    let Ok(text) = str::from_utf8(without_return(line)) else {
        return Err(Refusal::Fault(LineFault::Utf8));
    };
    read_text(alloc, text)
}
