ghost use Rattle.std.specs.Prelude.{◌≡◌, ◌<◌, List, [], length, slice_index_or, slice_set, IfOk};
ghost use Rattle.h2_command.specs.Lawful.{Lawful};
ghost use Rattle.h2_script.specs.LawfulScripts.{IsLawfulScript};
ghost use Rattle.h2_script.specs.Scripts.{phases_of};
ghost use Rattle.h2_script.specs.Reading.{IsReadSoFar};
ghost use Rattle.h2_script.specs.declared.line.Line.{Line};

use crate::reading::Reading;
use h2_command::Command;
use h2_num::NoMemory;
use std::marker::Model;

/// A script: its phases, each with the clients and their commands in order. A script can hold each of its
/// commands, and its clients are below 8.
#[derive(Drop)]
pub struct Script {
    phases: Vec<Vec<(u32, Command)>>,
}

impl Model for Script {
    ghost use Rattle.std.specs.Prelude.{List, ℕ, map};
    ghost use Rattle.h2_command.specs.declared.command.Command.{Command};
    ghost use Rattle.h2_script.specs.LawfulScripts.{IsLawfulScript};

    ghost Value = { List (List (ℕ × Command)) };

    ghost view = { λ s. map (λ phase. phase.items) s.phases.items };

    ghost invariant = { λ s. IsLawfulScript (map (λ phase. phase.items) s.phases.items) };
}

impl Script {
    /// The script of the phases that were read.
    pub fn from_reading(reading: Reading) -> Result<Script, NoMemory>
        requires { (lines : List Line) × IsReadSoFar lines reading × IsLawfulScript (phases_of lines) }
        ensures { (lines : List Line) → IsReadSoFar lines reading → IfOk result (λ script. script ≡ phases_of lines) }
    {
        let mut phases = reading.ended;
        phases.push(reading.open)?;
        Ok(Script { phases })
    }

    /// The number of phases.
    pub fn phases(&self) -> usize
        ensures count { result ≡ length self.now }
        ensures lawful { IsLawfulScript self.now }
    {
        self.phases.len()
    }
}

impl Script {
    /// The number of commands of a phase that is there.
    pub fn len(&self, phase: usize) -> usize
        requires { phase < length self.now }
        ensures { result ≡ length (slice_index_or self.now phase []) }
    {
        self.phases[phase].len()
    }

    /// The client and the command at a place that is there.
    pub fn at(&self, phase: usize, i: usize) -> (u32, &Command)
        requires phase { phase < length self.now }
        requires place { i < length (slice_index_or self.now phase []) }
        ensures there { (result.0, result.1.now) ≡ slice_index_or (slice_index_or self.now phase []) i (result.0, result.1.now) }
        ensures lawful { (result.0 < 8) × Lawful result.1.now }
    {
        let (client, command) = &self.phases[phase][i];
        (*client, command)
    }

    /// Takes the command at a place that is there, and leaves `PfsList` in it. It takes no memory.
    pub fn take(&mut self, phase: usize, i: usize) -> Command
        requires phase { phase < length self.old }
        requires place { i < length (slice_index_or self.old phase []) }
        ensures lawful { Lawful result }
        ensures command { result ≡ (slice_index_or (slice_index_or self.old phase []) i (0, result)).1 }
        ensures left { self.new ≡ slice_set self.old phase (slice_set (slice_index_or self.old phase []) i ((slice_index_or (slice_index_or self.old phase []) i (0, result)).0, Command.PfsList)) }
    {
        let place = &mut self.phases[phase][i];
        std::mem::replace(&mut place.1, Command::PfsList)
    }
}
