//! The program `h2`: one command of a volume in a file.
//!
//! `h2 COMMAND IMAGE [ARGUMENTS]` runs on a disk over the file IMAGE, and its line goes to standard
//! output. What a command does, its line and its exit status are the contract of `h2_cmd::run_alone`,
//! which is all that this program calls.
#![tactic(auto)]

ghost use Rattle.std.specs.Prelude.{◌≡◌, [], IfOk, MatchResult, map, slice_index_or};
ghost use Rattle.std.specs.String.{string_bytes};
ghost use Rattle.std.specs.Process.{exit_status};
ghost use Rattle.h2_cmd.specs.Status.{code_of};

#[cfg(test)]
mod tests;

use h2_cmd::{Outcome, Status, run_alone};
use h2_disk::FileDisk;
use h2_io::StdSink;
use std::alloc::{AllocError, Global};
use std::env::{self, Env};
use std::io::{self, ErrorKind};
use std::process::ExitCode;

// The words of the command line without the program's name. Where one of them isn't UTF-8 they ask for
// nothing, as no words do.
fn command_words(rt: &(impl Env + AllocGlobal)) -> Result<Vec<String>, AllocError> {
    match env::args(rt) {
        Ok(words) => words.skip(1).collect(rt.alloc()),
        Err(error) if error.kind() == ErrorKind::InvalidData => Ok(Vec::new(rt.alloc())),
        Err(_) => Err(AllocError),
    }
}

// The path of the image: the second word, or the empty path where there is none.
fn image_path(alloc: Global, words: &[String]) -> Result<String, AllocError>
    ensures { IfOk result (λ path. string_bytes path ≡ slice_index_or (map string_bytes words.now) 1 []) }
{
    match words {
        [_, image, ..] => image.clone(),
        _ => Ok(String::new(alloc)),
    }
}

// Runs the command on its image, and answers the exit status.
fn run(rt: &HostRuntime) -> Result<u8, AllocError> {
    let words = command_words(rt)?;
    let path = image_path(rt.alloc(), &words)?;
    let disk = FileDisk::new(rt.clone()?, path);
    let mut out = StdSink::new(io::writer(rt));
    let Outcome { status, disk: _ } = run_alone(rt.alloc(), &words, disk, &mut out);
    Ok(status)
}

// The exit code of a run: the status that it answered, or that of want of memory.
fn exit_code(ran: Result<u8, AllocError>) -> ExitCode
    ensures { MatchResult ran (λ status. exit_status result ≡ status)
        (λ _. exit_status result ≡ code_of Status.NoMemory) }
{
    match ran {
        Ok(status) => ExitCode::from(status),
        Err(_) => ExitCode::from(Status::NoMemory.code()),
    }
}

fn main(rt: HostRuntime) -> ExitCode {
    exit_code(run(&rt))
}
