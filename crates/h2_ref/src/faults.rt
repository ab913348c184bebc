use crate::reference::Check;

/// Why bytes are no reference: the first of the refusals, in this order but for padding.
#[derive(Clone, Copy, Debug, PartialEq, Eq)]
pub enum RefFault {
    /// No kind has this number.
    Kind(u8),
    /// The kind doesn't have the method with this number, or no method has it.
    Method(u8),
    /// The kind has another radix than this.
    Radix(u8),
    /// The kind allows no block at this place.
    Place(u64),
    /// The kind doesn't allow the key or its keybits.
    Key,
    /// The kind doesn't allow the id.
    Id,
    /// The length, the target or the number of a directory's entry is out of its range.
    Dirent,
    /// The byte at this place isn't what it must be: the flags where it is 3, which are judged right after
    /// the method; else the first byte that must be zero and isn't.
    Padding(u8),
}

/// What is wrong with the block that a reference names.
#[derive(Clone, Copy, Debug, PartialEq, Eq)]
pub enum Why {
    /// The bytes have another check than the reference says.
    Check {
        /// The check in the reference.
        want: Check,
        /// The check of the bytes.
        got: Check,
    },
    /// A reference in the block is refused.
    Reference {
        /// The place of its first byte in the block.
        at: u32,
        /// Its first refusal.
        fault: RefFault,
    },
    /// The bytes spell no inode, or one whose number isn't the key.
    Inode,
    /// A name block with a nonzero byte behind the entry's name, a name that isn't allowed, or an entry under
    /// a key that isn't its name's.
    Name,
    /// Content behind the end of the file isn't zero.
    Tail,
    /// The references of the block aren't arranged as those of its kind are.
    Shape,
}

/// Why a block isn't there.
#[derive(Clone, Copy, Debug, PartialEq, Eq)]
pub enum Trouble {
    /// The disk failed.
    Failed,
    /// A block was read that isn't what its reference says.
    Bad {
        /// The place of its first byte on the disk.
        place: u64,
        /// What is wrong with it.
        why: Why,
    },
    /// Memory is wanting.
    NoMemory,
}
