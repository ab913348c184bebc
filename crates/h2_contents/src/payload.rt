ghost use Rattle.std.specs.Prelude.{◌≡◌, ◌<◌, ◌≤◌, ◌+◌, ◌^◌, ℕ, length, slice_index, replicate, IfOk, IfSome};
ghost use Rattle.h2_contents.specs.Payload.{payload_bytes};
ghost use Rattle.h2_contents.specs.Windows.{laid, LaysInto};

use h2_num::{Bytes, NoMemory};
use std::alloc::Global;

/// The bytes of a write.
#[derive(Drop, Debug)]
pub enum Payload {
    /// These bytes.
    Plain(Bytes),
    /// One byte so many times.
    Repeat { count: u32, byte: u8 },
}

/// Lays bytes that stand at `off` of a file into a window on it that begins at `start`.
fn lay_bytes(bytes: &[u8], off: u64, window: &mut [u8], start: u64)
    requires { start + length window.old ≤ 2 ^ 41 }
    ensures { LaysInto off bytes.now start window.old window.new }
{
    let from = off.max(start);
    let end = off
        .saturating_add(bytes.len() as u64)
        .min(start + window.len() as u64);
    if from >= end {
        return;
    }
    for at in from..end {
        window[(at - start) as usize] = bytes[(at - off) as usize];
    }
}

/// Lays one byte, which stands `count` times from `off` of a file on, into a window that begins at `start`.
fn lay_repeated(count: u32, byte: u8, off: u64, window: &mut [u8], start: u64)
    requires { start + length window.old ≤ 2 ^ 41 }
    ensures { LaysInto off (replicate count byte) start window.old window.new }
{
    let from = off.max(start);
    let end = off
        .saturating_add(count as u64)
        .min(start + window.len() as u64);
    if from >= end {
        return;
    }
    for at in from..end {
        window[(at - start) as usize] = byte;
    }
}

impl Payload {
    /// The number of bytes.
    pub fn len(&self) -> usize
        ensures { result ≡ length (payload_bytes self.now) }
    {
        match self {
            Payload::Plain(bytes) => bytes.as_slice().len(),
            Payload::Repeat { count, byte: _ } => *count as usize,
        }
    }

    /// An equal value.
    pub fn copy(&self, alloc: Global) -> Result<Payload, NoMemory>
        ensures { IfOk result (λ copy. copy ≡ self.now) }
    {
        match self {
            Payload::Plain(bytes) => Ok(Payload::Plain(bytes.copy(alloc)?)),
            Payload::Repeat { count, byte } => Ok(Payload::Repeat {
                count: *count,
                byte: *byte,
            }),
        }
    }

    /// Lays the bytes, which stand at `off` of a file, into a window on it that begins at `start`. The
    /// window ends at 2^41 at most.
    pub fn lay(&self, off: u64, window: &mut [u8], start: u64)
        requires { start + length window.old ≤ 2 ^ 41 }
        ensures { LaysInto off (payload_bytes self.now) start window.old window.new }
    {
        match self {
            Payload::Plain(bytes) => lay_bytes(bytes.as_slice(), off, window, start),
            Payload::Repeat { count, byte } => lay_repeated(*count, *byte, off, window, start),
        }
    }

    /// The byte that stands at each place of the page that begins at `start`, where the bytes stand at
    /// `off` and repeat one byte over the whole page.
    pub(crate) fn byte_of_page(&self, off: u64, start: u64) -> Option<u8>
        requires { start ≤ 2 ^ 40 }
        ensures { IfSome result (λ byte. (k : ℕ) → k < 16384 → (old : ℕ) → laid off (payload_bytes self.now) (start + k) old ≡ byte) }
    {
        let Payload::Repeat { count, byte } = self else {
            return None;
        };
        if off > start {
            return None;
        }
        if off + (*count as u64) < start + 16384 {
            return None;
        }
        Some(*byte)
    }
}
