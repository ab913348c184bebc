ghost use Rattle.std.specs.Prelude.{◌≡◌, ◌↔◌, ◌+◌, ◌++◌, [], ◌≤◌, ◌<◌, length, true, false, IsTrue, Some, IfOk, IfErr, OnErr};

use crate::sink::{PutFault, Sink};
use std::alloc::Global;

/// A sink in memory, which can be made to fail once.
#[derive(Drop)]
pub struct MemSink {
    bytes: Vec<u8>,
    // how many calls come before the one that fails
    until_fault: Option<u64>,
    faults: u64,
}

impl MemSink {
    ghost use Rattle.h2_io.specs.MemSink.{bytes_of, until_fault, faults_of};

    /// An empty sink. The call of `put` whose number from 0 is `fail` fails, and no other one does.
    pub fn new(alloc: Global, fail: Option<u64>) -> MemSink
        ensures empty { bytes_of result ≡ [] }
        ensures plan { until_fault result ≡ fail }
        ensures faults { faults_of result ≡ 0 }
    {
        MemSink {
            bytes: Vec::new(alloc),
            until_fault: fail,
            faults: 0,
        }
    }

    /// What the sink holds.
    pub fn bytes(&self) -> &[u8]
        ensures { result.now ≡ bytes_of self.now }
    {
        &self.bytes
    }
}

impl Sink for MemSink {
    ghost use Rattle.h2_io.specs.Sink.{taken, HasCause, IsCounted};
    ghost use Rattle.h2_io.specs.MemSink.{bytes_of, until_fault, faults_of, after_one};

    ghost tells = { true };

    ghost never_wants_memory = { false };

    ghost held = { bytes_of };

    ghost faults = { faults_of };

    /// Takes the whole piece, unless this is the call that fails or memory is wanting.
    fn put(&mut self, bytes: &[u8]) -> Result<usize, PutFault>
        requires { 0 < length bytes.now }
        ensures count { IfOk result (λ n. (0 < n) × (n ≤ length bytes.now)) }
        ensures held { IsTrue true → bytes_of self.new ≡ bytes_of self.old ++ taken result bytes.now }
        ensures later { faults_of self.old ≤ faults_of self.new }
        ensures cause { IfErr result (λ fault. HasCause (faults_of self.old) (faults_of self.new) fault) }
        ensures counted { IsCounted (faults_of self.old) (faults_of self.new) result }
        ensures whole { IfOk result (λ n. n ≡ length bytes.now) }
        ensures planned { (result ≡ Err PutFault.Failed) ↔ (until_fault self.old ≡ Some 0) }
        ensures plan { until_fault self.new ≡ after_one (until_fault self.old) }
    {
        if self.until_fault == Some(0) {
            self.until_fault = None;
            self.faults = self.faults.saturating_add(1);
            return Err(PutFault::Failed);
        }
        if let Some(calls) = self.until_fault {
            self.until_fault = Some(calls - 1);
        }
        match self.bytes.extend_from_slice(bytes) {
            Ok(()) => Ok(bytes.len()),
            Err(_) => Err(PutFault::NoMemory),
        }
    }
}
