use h2_num::Bytes;

/// Bytes that a flush writes to a place of the disk.
#[derive(Drop)]
pub struct Piece {
    /// The place of the first byte.
    pub at: u64,
    /// The bytes that stand there afterwards.
    pub bytes: Bytes,
}
