ghost use Rattle.std.specs.Prelude.{◌≡◌};
ghost use Rattle.h2_ref.specs.Fault.{kind_of};
ghost use Rattle.h2_ref.specs.Table.{row_of};

use crate::flags::RefFlags;
use crate::methods::Method;
use crate::reference::Kind;

/// The numbers from a least one to a last one.
#[derive(Clone, Copy)]
pub struct Span {
    pub least: u64,
    pub last: u64,
}

/// Which keybits a kind has.
#[derive(Clone, Copy)]
pub enum Keybits {
    /// These alone.
    Just(u8),
    /// One of these two.
    Either(u8, u8),
    /// From the first to the second.
    Between(u8, u8),
}

/// Which methods a kind allows.
#[derive(Clone, Copy)]
pub enum Methods {
    /// This alone.
    One(Method),
    /// Each of these two.
    Two(Method, Method),
}

/// The number of a kind and what is allowed of it: a row of the table of references. An entry of a directory
/// has two, since its name stands in the entry or in a block.
#[derive(Clone, Copy)]
pub struct Row {
    /// The number of the kind.
    pub number: u8,
    pub methods: Methods,
    pub flags: RefFlags,
    pub radix: u8,
    pub keybits: Keybits,
    pub keys: Span,
    pub ids: Span,
    /// The lengths of an entry's name in bytes; None for all other kinds.
    pub names: Option<Span>,
}

/// The end of a disk's places, in bytes.
pub const DISK_BYTES: u64 = 1 << 34;

/// The end of the numbers of inodes.
pub const INODE_END: u64 = 1 << 62;

/// Zero alone.
const ZERO: Span = Span { least: 0, last: 0 };

/// The numbers of checkpoints.
const IDS: Span = Span {
    least: 1,
    last: 1 << 62,
};

/// The numbers of inodes.
const INODES: Span = Span {
    least: 1,
    last: INODE_END - 1,
};

/// All keys.
const KEYS: Span = Span {
    least: 0,
    last: u64::MAX,
};

/// The places of a file's bytes.
const CONTENTS: Span = Span {
    least: 0,
    last: (1 << 40) - 1,
};

/// The keys of names.
const NAME_KEYS: Span = Span {
    least: 1 << 63,
    last: u64::MAX,
};

/// The places of a disk.
const PLACES: Span = Span {
    least: 0,
    last: DISK_BYTES - 1,
};

/// The lengths of names that stand in their entries, in bytes.
const SHORT_NAMES: Span = Span { least: 1, last: 64 };

/// The lengths of names that have blocks, in bytes.
const LONG_NAMES: Span = Span {
    least: 65,
    last: 255,
};

/// The methods of blocks of files and directories.
const BLOCK_METHODS: Methods = Methods::One(Method::Xxhash64);

/// The kinds that have rows, in the order of their numbers.
const KINDS: [Kind; 7] = [
    Kind::Empty,
    Kind::Inode,
    Kind::Indirect,
    Kind::Content,
    Kind::Dirent,
    Kind::MapNode,
    Kind::MapLeaf,
];

/// What rows of blocks of files and directories have in common.
const BLOCK: Row = Row {
    number: 0,
    methods: BLOCK_METHODS,
    flags: RefFlags::NONE,
    radix: 10,
    keybits: Keybits::Just(0),
    keys: KEYS,
    ids: IDS,
    names: None,
};

/// The reference that names nothing.
const EMPTY: Row = Row {
    methods: Methods::One(Method::Absent),
    radix: 0,
    keys: ZERO,
    ids: ZERO,
    ..BLOCK
};

/// An inode's block.
const INODE: Row = Row {
    number: 1,
    keys: INODES,
    ..BLOCK
};

/// A block with references to what is below.
const INDIRECT: Row = Row {
    number: 2,
    radix: 12,
    keybits: Keybits::Between(1, 62),
    ..BLOCK
};

/// A part of a file's contents.
const CONTENT: Row = Row {
    number: 3,
    radix: 14,
    keybits: Keybits::Just(14),
    keys: CONTENTS,
    ..BLOCK
};

/// An entry whose name stands in it.
const SHORT_ENTRY: Row = Row {
    methods: Methods::One(Method::Absent),
    flags: RefFlags::INLINE,
    radix: 0,
    names: Some(SHORT_NAMES),
    ..LONG_ENTRY
};

/// An entry whose name has a block.
const LONG_ENTRY: Row = Row {
    number: 4,
    keys: NAME_KEYS,
    names: Some(LONG_NAMES),
    ..BLOCK
};

/// A node of the freemap.
const MAP_NODE: Row = Row {
    number: 5,
    methods: Methods::One(Method::Freemap),
    keybits: Keybits::Either(28, 31),
    keys: PLACES,
    ..BLOCK
};

/// A leaf of the freemap.
const MAP_LEAF: Row = Row {
    number: 6,
    keybits: Keybits::Just(25),
    ..MAP_NODE
};

/// The row of a kind and a method's number, which tells the two rows of an entry apart and nothing else. It is lent,
/// so that no row is made for each reference that is judged.
pub fn row_of(kind: Kind, method: u8) -> &'static Row
    ensures { result.now ≡ row_of kind method }
{
    match kind {
        Kind::Empty => &EMPTY,
        Kind::Inode => &INODE,
        Kind::Indirect => &INDIRECT,
        Kind::Content => &CONTENT,
        Kind::Dirent if method == 0 => &SHORT_ENTRY,
        Kind::Dirent => &LONG_ENTRY,
        Kind::MapNode => &MAP_NODE,
        Kind::MapLeaf => &MAP_LEAF,
    }
}

/// The kind with the number; None where there is none.
pub fn kind_of(number: u8) -> Option<Kind>
    ensures { result ≡ kind_of number }
{
    KINDS.get(usize::from(number)).copied()
}
