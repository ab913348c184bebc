/// A block on the disk: the place of its first byte, and the base-2 logarithm of its size in bytes.
#[derive(Clone, Copy, Debug, PartialEq, Eq)]
pub struct Block {
    pub place: u64,
    pub radix: u8,
}
