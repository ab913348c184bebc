/// What a replay tells of a history.
#[derive(Clone, Copy, Debug, PartialEq, Eq)]
pub enum Replay {
    /// Each reply is the forest's.
    Same,
    /// The reply at this place of the history is the first that isn't.
    Differs(u32),
}
