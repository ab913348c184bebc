use h2_ref::RefFault;

/// Why 1024 bytes are no inode: the first of the refusals, in this order.
#[derive(Clone, Copy, Debug, PartialEq, Eq)]
pub enum InodeFault {
    /// No kind has this number.
    Kind(u8),
    /// The kind doesn't have such a body, or the file's size asks for another one.
    Body,
    /// The kind doesn't allow this number of links.
    Links(u32),
    /// The number is 0, or 2^62 or more.
    Number,
    /// The kind doesn't allow this size in bytes or entries.
    Size(u64),
    /// The kind doesn't allow the next inode number.
    Next,
    /// The kind has no name, or a PFS can't have this one.
    Name,
    /// The byte at this place must be zero and isn't, and each one before it that must be zero is.
    Padding(u16),
    /// A reference of the body is refused.
    Reference {
        /// The place of its first byte in the block.
        at: u32,
        /// Its first refusal.
        fault: RefFault,
    },
    /// The references of the body aren't a set of the kind's own.
    Shape,
}
