/// The bytes of a leaf or of a node.
pub const MAP_BYTES: usize = 1024;

/// The segments of a leaf, which stands for a zone.
pub const LEAF_SEGMENTS: usize = 8;

/// The references of a node.
pub const NODE_REFS: usize = 8;

/// The bytes of a part: that of a segment in a leaf, or of a reference in a node.
pub const PART_BYTES: usize = 128;

// Places in the part of a segment, in bytes.
pub const CODES_AT: usize = 0;

pub const FREE_AT: usize = 64;

pub const FREE_END: usize = 68;
