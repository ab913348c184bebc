ghost use Rattle.std.specs.Prelude.{◌≡◌};
ghost use Rattle.h2_script.specs.declared.fault.Refusal.{Refusal};

use h2_num::NoMemory;
use std::alloc::{AllocError, AllocFailed};
use thiserror::Error;

/// What is wrong with a line of a script: the first fault in the order of these variants, where the faults
/// of arguments come from left to right.
#[derive(Clone, Copy, Debug, PartialEq, Eq, Error)]
pub enum LineFault {
    /// The line isn't UTF-8.
    #[error("utf8")]
    Utf8,
    /// The line doesn't begin with a client digit, 0 to 7, as its first word.
    #[error("client")]
    Client,
    /// The word after the client is no command, or another number of words follows it.
    #[error("word")]
    Word,
    /// An argument isn't the path or the name of a PFS that it should be.
    #[error("path")]
    Path,
    /// An argument isn't the number that it should be.
    #[error("number")]
    Number,
    /// An argument isn't data.
    #[error("data")]
    Payload,
    /// More is asked for than a script may ask for.
    #[error("too-long")]
    TooLong,
}

/// Why a script isn't read.
#[derive(Clone, Copy, Debug, PartialEq, Eq)]
pub enum ParseFault {
    /// The first faulty line, counted from 1, and its first fault. A script of too many bytes has the
    /// fault [`LineFault::TooLong`] in line 0.
    Script { line: u32, why: LineFault },
    /// There wasn't memory enough.
    NoMemory,
}

/// Why a part of a line isn't read.
#[derive(Clone, Copy, Debug, PartialEq, Eq)]
pub enum Refusal {
    /// The line has this fault.
    Fault(LineFault),
    /// There wasn't memory enough.
    NoMemory,
}

impl From<NoMemory> for Refusal {
    ghost from_gives = { λ _ e. e ≡ Refusal.NoMemory };

    fn from(_error: NoMemory) -> Refusal {
        Refusal::NoMemory
    }
}

impl From<AllocError> for Refusal {
    ghost from_gives = { λ _ e. e ≡ Refusal.NoMemory };

    fn from(_error: AllocError) -> Refusal {
        Refusal::NoMemory
    }
}

impl<T: Drop> From<AllocFailed<T>> for Refusal {
    ghost from_gives = { λ _ e. e ≡ Refusal.NoMemory };

    fn from(_error: AllocFailed<T>) -> Refusal {
        Refusal::NoMemory
    }
}
