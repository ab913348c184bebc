/// Where the next block of a size goes that shares a chunk with others: into this chunk, behind its first `used` bytes.
///
/// At the end of a filled chunk it still names that chunk, so `used` may be the 16384 bytes of a chunk.
#[derive(Clone, Copy, Debug, PartialEq, Eq)]
pub struct Cursor {
    /// The number of the chunk: the volume's bytes in chunks of 16 KiB, from 0.
    pub chunk: u32,
    /// How many bytes of it are taken, from its first on.
    pub used: u32,
}
