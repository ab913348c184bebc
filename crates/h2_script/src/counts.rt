ghost use Rattle.std.specs.Prelude.{◌≡◌, ◌+◌, ◌≤◌, ◌<◌, ◌↔◌, IsTrue, [], ◌∷◌, ◌++◌, List, cond, length, MatchOption};
ghost use Rattle.h2_command.specs.declared.command.Command.{Command};
ghost use Rattle.h2_command.specs.Commands.{is_bulkfree};
ghost use Rattle.h2_script.specs.Scripts.{AreFew, is_list, asked};
ghost use Rattle.h2_script.specs.Counts.{AreCounted};

use h2_command::Command;

/// The most commands, `ls` and `bulkfree` of one script.
const MOST_COMMANDS: u32 = 65_536;

const MOST_LISTS: u32 = 256;

const MOST_PASSES: u32 = 1_024;

/// The most bytes that all `read` lines of one script ask for together.
const MOST_BYTES: u64 = 67_108_864;

/// How many commands, `ls` and `bulkfree` there were, and how many bytes were asked for.
#[derive(Clone, Copy)]
pub struct Counts {
    pub commands: u32,
    pub lists: u32,
    pub passes: u32,
    pub bytes: u64,
}

fn is_list(command: &Command) -> bool
    ensures { result ≡ is_list command.now }
{
    matches!(command, Command::Ls(_))
}

fn is_bulkfree(command: &Command) -> bool
    ensures { result ≡ is_bulkfree command.now }
{
    matches!(command, Command::Bulkfree)
}

fn asked(command: &Command) -> u32
    ensures { result ≡ asked command.now }
{
    match command {
        Command::ReadAt { len, .. } => *len,
        _ => 0,
    }
}

// The number, with one more where one is counted.
fn one_more(number: u32, counted: bool) -> u32
    requires { number < 65537 }
    ensures { result ≡ number + cond counted 1 0 }
{
    if counted { number + 1 } else { number }
}

impl Counts {
    /// Nothing was counted.
    pub fn new() -> Counts
        ensures { AreCounted [] result }
    {
        Counts {
            commands: 0,
            lists: 0,
            passes: 0,
            bytes: 0,
        }
    }

    fn is_few(&self) -> bool
        ensures { IsTrue result ↔ ((self.now.commands ≤ 65536) × (self.now.lists ≤ 256) × (self.now.passes ≤ 1024) × (self.now.bytes ≤ 67108864)) }
    {
        if self.commands > MOST_COMMANDS {
            return false;
        }
        if self.lists > MOST_LISTS {
            return false;
        }
        if self.passes > MOST_PASSES {
            return false;
        }
        self.bytes <= MOST_BYTES
    }

    /// One more command was counted; None exactly where it is more than a script may have.
    pub fn with(self, command: &Command) -> Option<Counts>
        requires { (before : List Command) × AreCounted before self }
        ensures { (before : List Command) → AreCounted before self
            → MatchOption result (AreFew (before ++ command.now ∷ []) → ⊥) (AreCounted (before ++ command.now ∷ [])) }
    {
        let counts = Counts {
            commands: self.commands + 1,
            lists: one_more(self.lists, is_list(command)),
            passes: one_more(self.passes, is_bulkfree(command)),
            bytes: self.bytes + asked(command) as u64,
        };
        if !counts.is_few() {
            return None;
        }
        Some(counts)
    }
}
