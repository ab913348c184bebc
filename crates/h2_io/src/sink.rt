ghost use Rattle.std.specs.Prelude.{◌≡◌, ◌≤◌, ◌<◌, ◌++◌, List, ℕ, Bool, IsTrue, length, IfOk, IfErr};

/// Why a sink took nothing.
#[derive(Clone, Copy, Debug, PartialEq, Eq)]
pub enum PutFault {
    /// The sink failed, and its count of faults rose.
    Failed,
    /// Memory was wanting.
    NoMemory,
}

/// What takes bytes, piece by piece.
pub trait Sink {
    ghost use Rattle.h2_io.specs.Sink.{taken, HasCause};

    /// Whether sinks of this type tell what they hold.
    ghost tells: { Bool };

    /// Whether sinks of this type never answer that memory was wanting.
    ghost never_wants_memory: { Bool };

    /// What the sink holds.
    ghost held: { Self → List ℕ };

    /// How often the sink has failed.
    ghost faults: { Self → ℕ };

    /// Takes at least one byte from the front of a nonempty piece and answers how many, or refuses and
    /// takes nothing.
    fn put(&mut self, bytes: &[u8]) -> Result<usize, PutFault>
        requires { 0 < length bytes.now }
        ensures count { IfOk result (λ n. (0 < n) × (n ≤ length bytes.now)) }
        ensures held { IsTrue tells → held self.new ≡ held self.old ++ taken result bytes.now }
        ensures later { faults self.old ≤ faults self.new }
        ensures cause { IfErr result (λ fault. HasCause (faults self.old) (faults self.new) fault) }
        ensures memory { IfErr result (λ fault. IsTrue never_wants_memory → fault ≡ PutFault.Failed) };
}
