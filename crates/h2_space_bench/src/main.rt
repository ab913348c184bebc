//! Times the freemap of a nearly full volume, for `bench/space`.
//!
//! `check` takes all free chunks of a nearly full volume of 4 zones, and prints what it took, and what a
//! pass of bulkfree then makes of the volume. `time take|apply PASSES` does one of the two PASSES times
//! over a nearly full volume of 512 zones, and prints the nanoseconds that it took, how many takes or
//! applies that were, and their answers, joined into one number.
#![tactic(auto)]

use h2_codes::{SEGMENT_BYTES, Seen, Segment};
use h2_freemap::{Freemap, Size};
use h2_geom::{Geometry, SEGMENT_CHUNKS, ZONE_SEGMENTS};
use h2_num::NoMemory;
use std::alloc::Global;
use std::process::ExitCode;
use std::time::Instant;
use std::{env, io};

/// What is timed.
#[derive(Clone, Copy)]
enum Work {
    /// Taking all free chunks, one after the other.
    Take,
    /// Applying a pass of bulkfree to all segments.
    Apply,
}

#[derive(Clone, Copy)]
enum Command {
    Check,
    // What is timed, and how often.
    Time(Work, u32),
}

// The words of the command line, of which the first is the program's name.
fn command_of(words: &[String]) -> Option<Command> {
    match words {
        [_, command] if command.as_str() == "check" => Some(Command::Check),
        [_, command, work, passes] if command.as_str() == "time" => {
            let work = match work.as_str() {
                "take" => Work::Take,
                "apply" => Work::Apply,
                _ => return None,
            };
            Some(Command::Time(work, passes.as_str().parse().ok()?))
        }
        _ => None,
    }
}

// Segment `s` of a nearly full volume: used but for the reserved ones, and the last one, which is free.
fn nearly_full_segment(s: u32, last: u32) -> Segment {
    if s % ZONE_SEGMENTS == 0 {
        Segment::new(true)
    } else if s == last {
        Segment::new(false)
    } else {
        Segment::from_bytes(&[0xff; SEGMENT_BYTES])
    }
}

// The freemap of a nearly full volume.
fn nearly_full(alloc: Global, zones: u32) -> Result<Option<Freemap>, NoMemory> {
    let Some(geometry) = Geometry::of(zones) else {
        return Ok(None);
    };
    let count = geometry.segments();
    let mut segments = Vec::with_capacity(alloc, count as usize)?;
    for s in 0..count {
        segments.push(nearly_full_segment(s, count - 1))?;
    }
    if segments.len() != count as usize {
        return Ok(None);
    }
    Ok(Some(Freemap::from_segments(alloc, geometry, segments)?))
}

/// Answers, joined into one number, and how many they are.
#[derive(Clone, Copy)]
struct Tally {
    count: u64,
    joined: u64,
}

impl Tally {
    fn add(&mut self, answer: u64) {
        self.count = self.count.wrapping_add(1);
        self.joined = self.joined.rotate_left(5) ^ answer;
    }
}

// Takes whole chunks until none is free, a segment's at most.
fn take_all(map: &mut Freemap, tally: &mut Tally) {
    for _ in 0..SEGMENT_CHUNKS {
        if map.need(0, 0, 1) > map.free() {
            return;
        }
        tally.add(map.take(Size::Whole).place);
    }
}

// Applies a pass to a segment, where the volume has it.
fn apply(map: &mut Freemap, s: u32, seen: &Seen, tally: &mut Tally) {
    if s < map.geometry().segments() {
        let (staged, freed) = map.apply(s, seen);
        tally.add(staged as u64);
        tally.add(freed as u64);
    }
}

// Takes what is free in the last segment, and frees it again by two passes that see nothing.
fn take_and_free(map: &mut Freemap, tally: &mut Tally) {
    take_all(map, tally);
    let last = map.geometry().segments() - 1;
    apply(map, last, &Seen::new(), tally);
    apply(map, last, &Seen::new(), tally);
}

// Applies a pass that sees each third chunk of a segment to all segments.
fn apply_all(map: &mut Freemap, seen: &Seen, tally: &mut Tally) {
    for s in 0..map.geometry().segments() {
        apply(map, s, seen, tally);
    }
}

// Each third chunk of a segment.
fn each_third() -> Seen {
    let mut seen = Seen::new();
    for c in 0..=255u8 {
        if c % 3 == 0 {
            seen.mark(c);
        }
    }
    seen
}

fn print_check(rt: &HostRuntime, map: &mut Freemap) -> io::Result<()> {
    let before = map.free();
    let mut taken = Tally {
        count: 0,
        joined: 0,
    };
    take_all(map, &mut taken);
    let after = map.free();
    println!(rt; "{before} free, {} taken, {after} left", taken.count)?;
    let seen = each_third();
    let mut applied = Tally {
        count: 0,
        joined: 0,
    };
    apply_all(map, &seen, &mut applied);
    apply_all(map, &seen, &mut applied);
    let freed = map.free();
    println!(rt; "{freed} free after two passes")?;
    Ok(())
}

fn print_time(rt: &HostRuntime, map: &mut Freemap, work: Work, passes: u32) -> io::Result<()> {
    let seen = each_third();
    let mut tally = Tally {
        count: 0,
        joined: 0,
    };
    let start = Instant::now(rt)?;
    for _ in 0..passes {
        match work {
            Work::Take => take_and_free(map, &mut tally),
            Work::Apply => apply_all(map, &seen, &mut tally),
        }
    }
    let nanoseconds = start.elapsed(rt)?.as_nanos();
    println!(rt; "{nanoseconds} {} {:016x}", tally.count, tally.joined)?;
    Ok(())
}

// A nearly full volume of so many zones, and what the command does with it.
fn run(rt: &HostRuntime, command: Command) -> io::Result<()> {
    let zones = match command {
        Command::Check => 4,
        Command::Time(_, _) => 512,
    };
    let Ok(Some(mut map)) = nearly_full(rt.alloc(), zones) else {
        println!(rt; "memory is wanting")?;
        return Ok(());
    };
    match command {
        Command::Check => print_check(rt, &mut map),
        Command::Time(work, passes) => print_time(rt, &mut map, work, passes),
    }
}

fn main(rt: HostRuntime) -> io::Result<ExitCode> {
    let words: Vec<String> = env::args(&rt)?.collect(rt.alloc())?;
    let Some(command) = command_of(&words) else {
        eprintln!(rt; "usage: h2_space_bench check | time take|apply PASSES")?;
        return Ok(ExitCode::from(2));
    };
    run(&rt, command)?;
    Ok(ExitCode::SUCCESS)
}
