ghost use Rattle.std.specs.Prelude.{◌≡◌, ◌⊎◌, ◌∷◌, ◌++◌, [], List, OnOk, MatchResult};
ghost use Rattle.h2_script.specs.declared.line.Line.{Line};
ghost use Rattle.h2_script.specs.declared.fault.LineFault.{LineFault};
ghost use Rattle.h2_script.specs.Lines.{SpellsLine, IsFaultOfLine};
ghost use Rattle.h2_script.specs.Scripts.{AreFew, commands_of, IsOneTooMany};
ghost use Rattle.h2_script.specs.Reading.{IsReadSoFar};
ghost use Rattle.h2_script.specs.Refusals.{RefusedBy};

use crate::counts::Counts;
use crate::fault::{LineFault, Refusal};
use crate::line::{Line, read_line};
use h2_command::Command;
use h2_num::NoMemory;
use std::alloc::Global;

/// A script of which some lines were read: the phases that ended, and the one that didn't.
#[derive(Drop)]
pub struct Reading {
    pub ended: Vec<Vec<(u32, Command)>>,
    pub open: Vec<(u32, Command)>,
    pub counts: Counts,
}

impl Reading {
    /// No line was read.
    pub fn new(alloc: Global) -> Reading
        ensures { IsReadSoFar [] result }
    {
        Reading {
            ended: Vec::new(alloc),
            open: Vec::new(alloc),
            counts: Counts::new(),
        }
    }

    // A line ended the phase.
    fn end_phase(&mut self, alloc: Global) -> Result<(), NoMemory>
        ensures { OnOk result ((lines : List Line) → IsReadSoFar lines self.old → IsReadSoFar (lines ++ Line.PhaseEnd ∷ []) self.new) }
    {
        let open = std::mem::replace(&mut self.open, Vec::new(alloc));
        self.ended.push(open)?;
        Ok(())
    }

    // A line had a command, which may be one too many.
    fn add(&mut self, client: u32, command: Command) -> Result<(), Refusal>
        requires { (lines : List Line) × IsReadSoFar lines self.old }
        ensures { MatchResult result
            (λ _. (lines : List Line) → IsReadSoFar lines self.old → IsReadSoFar (lines ++ Line.Call client command ∷ []) self.new)
            (RefusedBy (λ why. (why ≡ LineFault.TooLong)
            × ((lines : List Line) → IsReadSoFar lines self.old → AreFew (commands_of lines ++ command ∷ []) → ⊥))) }
    {
        let Some(counts) = self.counts.with(&command) else {
            return Err(Refusal::Fault(LineFault::TooLong));
        };
        self.counts = counts;
        self.open.push((client, command))?;
        Ok(())
    }
}

impl Reading {
    /// Reads one more line. After a fault nothing is to be read any more.
    pub fn take_line(&mut self, alloc: Global, line: &[u8]) -> Result<(), Refusal>
        requires { (lines : List Line) × IsReadSoFar lines self.old }
        ensures { (before : List Line) → IsReadSoFar before self.old → MatchResult result
            (λ _. (said : Line) × SpellsLine line.now said × IsReadSoFar (before ++ said ∷ []) self.new)
            (RefusedBy (λ why. IsFaultOfLine line.now why ⊎ (IsOneTooMany before line.now × (why ≡ LineFault.TooLong)))) }
    {
        match read_line(alloc, line)? {
            Line::Skipped => Ok(()),
            Line::PhaseEnd => {
                self.end_phase(alloc)?;
                Ok(())
            }
            Line::Call(client, command) => self.add(client, command),
        }
    }
}
