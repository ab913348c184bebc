//! Times trees of sets in memory, for `bench/tree`.
//!
//! `check` inserts a thousand entries of a directory, looks each of them up, and prints how many blocks the splits made,
//! and what the lookups found, joined into one number. `time ENTRIES` does that with so many entries, and prints the
//! nanoseconds that the insertions took and those that the lookups took before the same.
#![tactic(auto)]

mod entries;
mod tree;

use h2_num::NoMemory;
use h2_ref::Trouble;
use std::process::ExitCode;
use std::time::Instant;
use std::{env, io};
use tree::Tree;

/// How many entries are inserted for the check.
const CHECKED: u32 = 1000;

#[derive(Clone, Copy)]
enum Command {
    Check,
    // How many entries are inserted and looked up.
    Time(u32),
}

// The words of the command line, of which the first is the program's name.
fn command_of(words: &[String]) -> Option<Command> {
    match words {
        [_, command] if command.as_str() == "check" => Some(Command::Check),
        [_, command, entries] if command.as_str() == "time" => {
            Some(Command::Time(entries.as_str().parse().ok()?))
        }
        _ => None,
    }
}

/// How long it took, and what was found.
#[derive(Clone, Copy)]
struct Timed {
    insertions: u128,
    lookups: u128,
    blocks: u64,
    joined: u64,
}

fn print_trouble(rt: &HostRuntime) -> io::Result<()> {
    println!(rt; "memory is wanting")?;
    Ok(())
}

// A tree with so many entries, each of which was looked up; none where memory is wanting.
fn measure(rt: &HostRuntime, entries: u32) -> io::Result<Option<Timed>> {
    let Ok(mut tree) = Tree::new(rt.alloc()) else {
        return Ok(None);
    };
    let start = Instant::now(rt)?;
    let Ok(()) = tree.insert_all(rt.alloc(), entries) else {
        return Ok(None);
    };
    let insertions = start.elapsed(rt)?.as_nanos();
    let start = Instant::now(rt)?;
    let Ok(joined) = tree.find_all(rt.alloc(), entries) else {
        return Ok(None);
    };
    let lookups = start.elapsed(rt)?.as_nanos();
    Ok(Some(Timed {
        insertions,
        lookups,
        blocks: tree.blocks(),
        joined,
    }))
}

fn print_check(rt: &HostRuntime, timed: &Timed) -> io::Result<()> {
    println!(rt;
        "{CHECKED} entries {} blocks {:016x}",
        timed.blocks, timed.joined
    )?;
    Ok(())
}

fn print_time(rt: &HostRuntime, timed: &Timed) -> io::Result<()> {
    println!(rt;
        "{} {} {} {:016x}",
        timed.insertions, timed.lookups, timed.blocks, timed.joined
    )?;
    Ok(())
}

// Does what the command says.
fn run(rt: &HostRuntime, command: Command) -> io::Result<()> {
    let entries = match command {
        Command::Check => CHECKED,
        Command::Time(entries) => entries,
    };
    let Some(timed) = measure(rt, entries)? else {
        return print_trouble(rt);
    };
    match command {
        Command::Check => print_check(rt, &timed),
        Command::Time(_) => print_time(rt, &timed),
    }
}

fn main(rt: HostRuntime) -> io::Result<ExitCode> {
    let words: Vec<String> = env::args(&rt)?.collect(rt.alloc())?;
    let Some(command) = command_of(&words) else {
        eprintln!(rt; "usage: h2_tree_bench check | time ENTRIES")?;
        return Ok(ExitCode::from(2));
    };
    run(&rt, command)?;
    Ok(ExitCode::SUCCESS)
}
