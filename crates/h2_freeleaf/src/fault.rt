/// Why a block of the freemap can't be taken. Places are those on the disk, in bytes.
#[derive(Clone, Copy, Debug, PartialEq, Eq)]
pub enum MapFault {
    /// The block doesn't have the check of the reference that names it.
    BadCheck {
        /// The place of the block's first byte.
        place: u64,
        /// The check that the reference has.
        want: u32,
        /// The CRC-32C of the block's bytes.
        got: u32,
    },
    /// The byte at this place must be zero, and isn't.
    Padding(u64),
    /// The number at this place isn't that of the free chunks of its segment.
    Shape(u64),
    /// The reference whose first byte is at this place can't be taken.
    Reference(u64),
}

/// Why the freemap of an image isn't read.
#[derive(Clone, Copy, Debug, PartialEq, Eq)]
pub enum MapRead {
    /// A block is bad: the first one in the order of keys, where a node comes before what is under it.
    Fault(MapFault),
    /// The disk failed, and its count of faults rose.
    Disk,
    /// Memory was wanting.
    NoMemory,
}
