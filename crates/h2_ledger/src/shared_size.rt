/// The sizes of blocks that share a chunk with others: 1 KiB and 4 KiB.
#[derive(Clone, Copy, Debug, PartialEq, Eq)]
pub enum SharedSize {
    /// Blocks of 1 KiB.
    Small,
    /// Blocks of 4 KiB.
    Middle,
}
