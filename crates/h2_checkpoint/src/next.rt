/// What a flush does next.
#[derive(Clone, Copy, Debug, PartialEq, Eq)]
pub enum Next {
    /// Writes the piece with this index, or after the last one makes the pieces durable.
    Pieces(usize),
    /// Writes the header.
    Header,
    /// Makes the header durable.
    Finish,
}

/// What a step of a flush has done.
#[derive(Clone, Copy, Debug, PartialEq, Eq)]
pub enum Stepped {
    /// A piece was written.
    Wrote,
    /// The pieces are durable.
    Synced,
    /// The header was written.
    Out,
    /// The header is durable, and the checkpoint completed.
    Done,
}
