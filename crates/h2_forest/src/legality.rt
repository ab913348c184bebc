ghost use Rattle.std.specs.Prelude.{◌≡◌};
ghost use Rattle.h2_forest.specs.Parts.{all_hold};

/// Whether a run's last pass of bulkfree has ended.
#[derive(Clone, Copy, Debug, PartialEq, Eq)]
pub enum LastPass {
    /// Each pass has ended.
    Ended,
    /// The last pass may still run.
    Runs,
}

/// What a history is judged by beside its first forest.
#[derive(Clone, Copy, Debug, PartialEq, Eq)]
pub struct Opening {
    /// The number of the header with which the volume was opened.
    pub number: u64,
    /// The segments of the volume, 8 a zone.
    pub segments: u32,
    /// Whether the last pass has ended.
    pub last_pass: LastPass,
}

/// How far the flush of the newest Freeze has come.
#[derive(Clone, Copy, Debug, PartialEq, Eq)]
pub enum Stage {
    /// Its header is durable.
    Durable,
    /// It has begun.
    Frozen,
    /// A write of its header has begun.
    Out,
}

/// The number of the newest Freeze, and how far its flush has come.
#[derive(Clone, Copy, Debug, PartialEq, Eq)]
pub struct Flush {
    pub number: u64,
    pub stage: Stage,
}

/// The segments that the running pass has applied, with its sums of staged and freed chunks.
#[derive(Clone, Copy, Debug, PartialEq, Eq)]
pub enum Pass {
    /// No pass runs, or it has no scan yet.
    Idle,
    Scanned {
        applied: u32,
        staged: u64,
        freed: u64,
    },
}

/// What the reply to a command says of the running pass.
#[derive(Clone, Copy, Debug, PartialEq, Eq)]
pub enum Outcome {
    /// Nothing.
    Pending,
    /// It was given up.
    GivenUp,
    /// It applied all segments, with these sums.
    Complete { staged: u32, freed: u32 },
}

/// Which parts of what makes a history legal hold.
#[derive(Clone, Copy, Debug, PartialEq, Eq)]
pub struct Legality {
    /// Each reply is the forest's at its place, or a refusal from outside.
    pub replies: bool,
    /// Each disk fault's counts rise.
    pub faults: bool,
    /// Each client's entries have the indices 0, 1, 2 and on.
    pub indices: bool,
    /// Phases never fall.
    pub phases: bool,
    /// Flushes stand one after the other.
    pub flushes: bool,
    /// The moments of marks never fall.
    pub moments: bool,
    /// Scans begin for durable headers alone.
    pub scans: bool,
    /// Passes stand one after the other, with right sums, and one that was given up applied nothing.
    pub passes: bool,
}

impl Legality {
    /// Whether all parts hold.
    pub fn is_legal(&self) -> bool
        ensures { result ≡ all_hold self.now }
    {
        self.replies
            && self.faults
            && self.indices
            && self.phases
            && self.flushes
            && self.moments
            && self.scans
            && self.passes
    }
}
