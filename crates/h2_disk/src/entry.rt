ghost use Rattle.std.specs.Prelude.{◌≡◌, ◌↔◌, IsTrue};
ghost use Rattle.h2_disk.specs.Record.{IsWrite, moment_of};

use h2_num::Bytes;

/// What a disk in memory notes, each with its moment.
#[derive(Drop)]
pub enum Entry {
    /// Bytes that stood at the place at moment 0.
    Laid { at: u64, bytes: Bytes },
    /// A write of bytes at the place that began at this moment, and was done.
    Write { began: u64, at: u64, bytes: Bytes },
    /// A sync that was done at this moment.
    Sync { done: u64 },
}

impl Entry {
    /// The moment from which on a cut finds it.
    pub fn moment(&self) -> u64
        ensures { result ≡ moment_of self.now }
    {
        match self {
            Entry::Laid { .. } => 0,
            Entry::Write { began, .. } => *began,
            Entry::Sync { done } => *done,
        }
    }

    /// Whether it is a write.
    pub fn is_write(&self) -> bool
        ensures { IsTrue result ↔ IsWrite self.now }
    {
        matches!(self, Entry::Write { .. })
    }
}
