ghost use Rattle.std.specs.Prelude.{◌≡◌, ◌≤◌, ◌<◌, ◌++◌, true, false, IsTrue, length, take, IfOk, IfErr, IfSome, MatchOption};
ghost use Rattle.std.specs.Io.KnownBytes.{Keeps, Appends, WriteAppends};

use crate::sink::{PutFault, Sink};
use std::io::{ErrorKind, Write};

/// A sink that passes all on to a writer. Of what it holds it tells no more than the writer does. An
/// error of the writer, and that it takes nothing, counts as one fault; a write that was interrupted is
/// tried again.
#[derive(Drop)]
pub struct StdSink<W: Write + Drop> {
    writer: W,
    faults: u64,
}

impl<W: Write + Drop> StdSink<W> {
    ghost use Rattle.h2_io.specs.StdSink.{writer_of, faults_of};

    /// A sink over the writer.
    pub fn new(writer: W) -> StdSink<W>
        ensures writer { writer_of result ≡ writer }
        ensures faults { faults_of result ≡ 0 }
    {
        StdSink { writer, faults: 0 }
    }
}

// Writes at least one byte and says how many; None where the writer failed or took nothing.
fn write_some<W: Write>(writer: &mut W, bytes: &[u8]) -> Option<usize>
    ensures count { IfSome result (λ n. (0 < n) × (n ≤ length bytes.now)) }
    ensures passed { MatchOption result (Keeps (W.contents writer.old) (W.contents writer.new))
        (λ n. Appends (W.contents writer.old) (W.contents writer.new) (take n bytes.now)) }
{
    for _ in 0..u64::MAX {
        match writer.write(bytes) {
            Ok(0) => return None,
            Ok(count) => return Some(count),
            Err(error) => {
                if error.kind() != ErrorKind::Interrupted {
                    return None;
                }
            }
        }
    }
    None
}

impl<W: Write + Drop> Sink for StdSink<W> {
    ghost use Rattle.h2_io.specs.Sink.{taken, HasCause, IsCounted};
    ghost use Rattle.h2_io.specs.StdSink.{writer_of, faults_of, told_by};

    ghost tells = { false };

    ghost never_wants_memory = { true };

    ghost held = { told_by };

    ghost faults = { faults_of };

    fn put(&mut self, bytes: &[u8]) -> Result<usize, PutFault>
        requires { 0 < length bytes.now }
        ensures count { IfOk result (λ n. (0 < n) × (n ≤ length bytes.now)) }
        ensures held { IsTrue false → told_by self.new ≡ told_by self.old ++ taken result bytes.now }
        ensures later { faults_of self.old ≤ faults_of self.new }
        ensures cause { IfErr result (λ fault. HasCause (faults_of self.old) (faults_of self.new) fault) }
        ensures counted { IsCounted (faults_of self.old) (faults_of self.new) result }
        ensures passed { WriteAppends (W.contents (writer_of self.old)) (W.contents (writer_of self.new)) result bytes.now }
        ensures failed { IfErr result (λ fault. fault ≡ PutFault.Failed) }
    {
        match write_some(&mut self.writer, bytes) {
            Some(count) => Ok(count),
            None => {
                self.faults = self.faults.saturating_add(1);
                Err(PutFault::Failed)
            }
        }
    }
}
