ghost use Rattle.std.specs.Prelude.{◌≡◌, ◌==◌, ◌<◌, ◌≤◌, ◌^◌, List, IfOk, length, map, MatchResult};
ghost use Rattle.h2_script.specs.declared.line.Line.{Line};
ghost use Rattle.h2_script.specs.Lines.{lines_of};
ghost use Rattle.h2_script.specs.Scripts.{AreLines, IsScript, IsFaultOfLines, IsFaultOfScript, fault_in};
ghost use Rattle.h2_script.specs.LawfulScripts.{IsLawfulScript};
ghost use Rattle.h2_script.specs.Reading.{IsReadSoFar};

use crate::fault::{LineFault, ParseFault, Refusal};
use crate::reading::Reading;
use crate::script::Script;
use std::alloc::Global;

/// The most bytes of a script.
const SCRIPT_BYTES: usize = 4_194_304;

// The refusal of a line as that of a script.
fn refuse_in(line: u32, refusal: Refusal) -> ParseFault
    ensures { result ≡ fault_in line refusal }
{
    match refusal {
        Refusal::Fault(why) => ParseFault::Script { line, why },
        Refusal::NoMemory => ParseFault::NoMemory,
    }
}

// The lines up to the end, one after the other, so that only what they say is kept.
fn read_lines(alloc: Global, bytes: &[u8]) -> Result<Reading, ParseFault>
    requires { length bytes.now ≤ 4194304 }
    ensures { MatchResult result
        (λ reading. (read : List Line) × AreLines (lines_of bytes.now) read × IsReadSoFar read reading)
        (IsFaultOfLines (lines_of bytes.now)) }
{
    let mut reading = Reading::new(alloc);
    let mut number: u32 = 0;
    for line in bytes.split(|byte| *byte == b'\n') {
        number += 1;
        match reading.take_line(alloc, line) {
            Ok(()) => {}
            Err(refusal) => return Err(refuse_in(number, refusal)),
        }
    }
    Ok(reading)
}

/// The script that the bytes are. A line of the bytes is skipped, ends a phase, or is a command of a
/// client. The error names the first faulty line, and its first fault. The bytes are gone over once, and
/// memory is taken for what the script keeps, and for one line.
pub fn parse(alloc: Global, bytes: &[u8]) -> Result<Script, ParseFault>
    ensures meaning { MatchResult result (IsScript bytes.now) (IsFaultOfScript bytes.now) }
    ensures lawful { IfOk result IsLawfulScript }
{
    if bytes.len() > SCRIPT_BYTES {
        return Err(ParseFault::Script {
            line: 0,
            why: LineFault::TooLong,
        });
    }
    let reading = read_lines(alloc, bytes)?;
    let Ok(script) = Script::from_reading(reading) else {
        return Err(ParseFault::NoMemory);
    };
    Ok(script)
}
