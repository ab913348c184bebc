//! Times reading a script, and telling the history of one, for `bench/script`.
//!
//! `check` reads a script of a few lines, and prints the text of a history of it. `time parse|text FILE
//! PASSES` does one of the two PASSES times with the script in the file, and prints the nanoseconds that it
//! took, how many commands or bytes of text that were, and what was read or told, joined into one number.
//! The replies of the history are made up: each `read` gives as many bytes as it asks for.
#![tactic(auto)]

mod history;
mod tally;

use crate::history::history_of;
use crate::tally::Tally;
use h2_num::NoMemory;
use h2_script::{Script, parse, text};
use std::alloc::Global;
use std::process::ExitCode;
use std::time::Instant;
use std::{env, fs, io};

/// What is timed.
#[derive(Clone, Copy)]
enum Work {
    /// Reading the script.
    Parse,
    /// Telling its history.
    Text,
}

#[derive(Drop)]
enum Command {
    Check,
    // What is timed, with which script, and how often.
    Time(Work, String, u32),
}

const SMALL: &str =
    "0 create ROOT:/f\n1 ls ROOT:/\n0 open ROOT:/f\n---\n0 write 0 0 r:3:7\n1 read 0 0 3\n0 bulkfree\n";

// The words of the command line, of which the first is the program's name.
fn command_of(alloc: Global, words: &[String]) -> Option<Command> {
    match words {
        [_, command] if command.as_str() == "check" => Some(Command::Check),
        [_, command, work, file, passes] if command.as_str() == "time" => {
            let work = match work.as_str() {
                "parse" => Work::Parse,
                "text" => Work::Text,
                _ => return None,
            };
            let file = format!(in alloc; "{file}").ok()?;
            Some(Command::Time(work, file, passes.as_str().parse().ok()?))
        }
        _ => None,
    }
}

// The nanoseconds that so many readings took, and what the last of them read.
fn time_parse(rt: &HostRuntime, bytes: &[u8], passes: u32) -> io::Result<()> {
    let start = Instant::now(rt)?;
    let mut last: Option<Script> = None;
    for _ in 0..passes {
        last = parse(rt.alloc(), bytes).ok();
    }
    let nanoseconds = start.elapsed(rt)?.as_nanos();
    let mut tally = Tally::new();
    if let Some(script) = &last {
        tally.add_script(script);
    }
    println!(rt; "{nanoseconds} {} {:016x}", tally.count, tally.joined)?;
    Ok(())
}

// The nanoseconds that so many tellings took, and what the last of them told.
fn time_text(rt: &HostRuntime, bytes: &[u8], passes: u32) -> io::Result<()> {
    let Ok(script) = parse(rt.alloc(), bytes) else {
        println!(rt; "the script is refused")?;
        return Ok(());
    };
    let Ok(history) = history_of(rt.alloc(), script) else {
        println!(rt; "memory is wanting")?;
        return Ok(());
    };
    let mut tally = Tally::new();
    let start = Instant::now(rt)?;
    let mut last = text(rt.alloc(), &history);
    for _ in 1..passes {
        last = text(rt.alloc(), &history);
    }
    let nanoseconds = start.elapsed(rt)?.as_nanos();
    if let Ok(told) = &last {
        tally.add_bytes(told.as_slice());
    }
    println!(rt; "{nanoseconds} {} {:016x}", tally.count, tally.joined)?;
    Ok(())
}

// The text of a history of the small script.
fn told_small(alloc: Global) -> Result<String, NoMemory> {
    let Ok(script) = parse(alloc, SMALL.as_bytes()) else {
        return Ok(format!(in alloc; "the script is refused")?);
    };
    let told = text(alloc, &history_of(alloc, script)?)?;
    match str::from_utf8(told.as_slice()) {
        Ok(text) => Ok(format!(in alloc; "{text}")?),
        Err(_) => Ok(format!(in alloc; "the text isn't UTF-8")?),
    }
}

fn run(rt: &HostRuntime, command: &Command) -> io::Result<()> {
    match command {
        Command::Check => match told_small(rt.alloc()) {
            Ok(told) => print!(rt; "{told}")?,
            Err(_) => println!(rt; "memory is wanting")?,
        },
        Command::Time(work, file, passes) => {
            let script = fs::read_to_string(rt, file.as_str())?;
            match work {
                Work::Parse => time_parse(rt, script.as_bytes(), *passes)?,
                Work::Text => time_text(rt, script.as_bytes(), *passes)?,
            }
        }
    }
    Ok(())
}

fn main(rt: HostRuntime) -> io::Result<ExitCode> {
    let words: Vec<String> = env::args(&rt)?.collect(rt.alloc())?;
    let Some(command) = command_of(rt.alloc(), &words) else {
        eprintln!(rt; "usage: h2_script_bench check | time parse|text FILE PASSES")?;
        return Ok(ExitCode::from(2));
    };
    run(&rt, &command)?;
    Ok(ExitCode::SUCCESS)
}
