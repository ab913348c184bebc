/// Why a block is no header of its slot: the first of the refusals, in this order.
#[derive(Clone, Copy, Debug, PartialEq, Eq)]
pub enum HeadFault {
    /// The block doesn't begin with `H2VOLUME`.
    Magic,
    /// The format has another version than this, which the block has.
    Version(u32),
    /// The block doesn't have its check.
    Check {
        /// The check that stands in the block.
        want: u32,
        /// The CRC-32C of the bytes before it.
        got: u32,
    },
    /// A field is wrong: the least place of one in the block, in bytes. A reference is one field, at its first
    /// byte, and so is each byte that must be zero.
    Field(u32),
}
