//! Times the codecs of references, volume headers and inodes, for `bench/codecs`.
//!
//! `check` prints what one pass over the samples of each codec gives, in both directions. `time CODEC
//! DIRECTION PASSES` does that PASSES times, and prints the nanoseconds that it took, and what was encoded
//! or decoded, joined into one number.
#![tactic(auto)]

mod headers;
mod inodes;
mod references;
mod samples;

use h2_header::HEADER_BYTES;
use std::process::ExitCode;
use std::time::Instant;
use std::{env, io};

/// What is encoded and decoded.
#[derive(Clone, Copy)]
enum Codec {
    References,
    Headers,
    Inodes,
}

#[derive(Clone, Copy)]
enum Direction {
    Encode,
    Decode,
}

#[derive(Clone, Copy)]
enum Command {
    Check,
    // How often all samples are gone over.
    Time(Codec, Direction, u32),
}

fn codec_named(word: &str) -> Option<Codec> {
    match word {
        "references" => Some(Codec::References),
        "headers" => Some(Codec::Headers),
        "inodes" => Some(Codec::Inodes),
        _ => None,
    }
}

fn direction_named(word: &str) -> Option<Direction> {
    match word {
        "encode" => Some(Direction::Encode),
        "decode" => Some(Direction::Decode),
        _ => None,
    }
}

// The words of the command line, of which the first is the program's name.
fn command_of(words: &[String]) -> Option<Command> {
    match words {
        [_, command] if command.as_str() == "check" => Some(Command::Check),
        [_, command, codec, direction, passes] if command.as_str() == "time" => {
            let codec = codec_named(codec.as_str())?;
            let direction = direction_named(direction.as_str())?;
            let passes = passes.as_str().parse().ok()?;
            Some(Command::Time(codec, direction, passes))
        }
        _ => None,
    }
}

/// How long it took, and what it gave.
#[derive(Clone, Copy)]
struct Timed {
    nanoseconds: u128,
    joined: u64,
}

fn time_references(rt: &HostRuntime, direction: Direction, passes: u32) -> io::Result<Timed> {
    let refs = references::references(rt.alloc())?;
    let spellings = references::spellings(rt.alloc(), &refs)?;
    let start = Instant::now(rt)?;
    let mut joined = 0;
    for _ in 0..passes {
        joined = match direction {
            Direction::Encode => references::encode_all(&refs, joined),
            Direction::Decode => references::decode_all(&spellings, joined),
        };
    }
    let nanoseconds = start.elapsed(rt)?.as_nanos();
    Ok(Timed {
        nanoseconds,
        joined,
    })
}

fn time_headers(rt: &HostRuntime, direction: Direction, passes: u32) -> io::Result<Timed> {
    let block = headers::block(rt.alloc())?;
    let mut out = vec![in rt.alloc(); 0u8; HEADER_BYTES]?;
    let start = Instant::now(rt)?;
    let joined = match direction {
        Direction::Encode => headers::write_all(&block, &mut out, passes),
        Direction::Decode => headers::read_all(&block, passes),
    };
    let nanoseconds = start.elapsed(rt)?.as_nanos();
    Ok(Timed {
        nanoseconds,
        joined,
    })
}

fn time_inodes(rt: &HostRuntime, direction: Direction, passes: u32) -> io::Result<Timed> {
    let blocks = inodes::blocks(rt.alloc())?;
    let inodes = inodes::inodes(rt.alloc(), &blocks)?;
    let start = Instant::now(rt)?;
    let mut joined = 0;
    for _ in 0..passes {
        joined = match direction {
            Direction::Encode => inodes::encode_all(&inodes, joined),
            Direction::Decode => inodes::decode_all(&blocks, joined),
        };
    }
    let nanoseconds = start.elapsed(rt)?.as_nanos();
    Ok(Timed {
        nanoseconds,
        joined,
    })
}

fn time_codec(
    rt: &HostRuntime,
    codec: Codec,
    direction: Direction,
    passes: u32,
) -> io::Result<Timed> {
    match codec {
        Codec::References => time_references(rt, direction, passes),
        Codec::Headers => time_headers(rt, direction, passes),
        Codec::Inodes => time_inodes(rt, direction, passes),
    }
}

fn print_check(rt: &HostRuntime, name: &str, codec: Codec) -> io::Result<()> {
    let encoded = time_codec(rt, codec, Direction::Encode, 3)?.joined;
    let decoded = time_codec(rt, codec, Direction::Decode, 3)?.joined;
    println!(rt; "{name} encode {encoded:016x} decode {decoded:016x}")?;
    Ok(())
}

fn print_time(rt: &HostRuntime, timed: &Timed) -> io::Result<()> {
    println!(rt; "{} {:016x}", timed.nanoseconds, timed.joined)?;
    Ok(())
}

fn main(rt: HostRuntime) -> io::Result<ExitCode> {
    let words: Vec<String> = env::args(&rt)?.collect(rt.alloc())?;
    match command_of(&words) {
        Some(Command::Check) => {
            print_check(&rt, "references", Codec::References)?;
            print_check(&rt, "headers", Codec::Headers)?;
            print_check(&rt, "inodes", Codec::Inodes)?;
        }
        Some(Command::Time(codec, direction, passes)) => {
            print_time(&rt, &time_codec(&rt, codec, direction, passes)?)?
        }
        None => {
            eprintln!(rt;
                "usage: h2_codec_bench check | time references|headers|inodes encode|decode PASSES"
            )?;
            return Ok(ExitCode::from(2));
        }
    }
    Ok(ExitCode::SUCCESS)
}
