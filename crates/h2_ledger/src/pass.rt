/// How far a pass of bulkfree has come.
///
/// A pass is known by the number of its own freeze, which is the number of the header that its flush
/// writes. At this freeze it marks what is in use. Once its header is out it scans, and then applies one
/// segment of 256 chunks after the other.
#[derive(Clone, Copy, Debug, PartialEq, Eq)]
pub enum Pass {
    /// No pass runs.
    Idle,
    /// It has begun, and its own freeze is still to come.
    Begun,
    /// Its freeze is done, and its header isn't known to be out.
    Marked { number: u64 },
    /// It scans or applies; the segments below `applied` are applied.
    Scanning { number: u64, applied: u32 },
}
