/// The bytes of an inode.
pub const INODE_BYTES: usize = 1024;

/// The bytes of its body.
pub const BODY_BYTES: usize = 512;

// Places of its fields, in bytes.
pub const KIND_AT: usize = 0;

pub const BODY_AT: usize = 1;

pub const BODY_END: usize = 2;

pub const LINKS_AT: usize = 4;

pub const NUMBER_AT: usize = 8;

pub const SIZE_AT: usize = 16;

pub const NEXT_AT: usize = 24;

pub const NAME_LEN_AT: usize = 32;

pub const NAME_LEN_END: usize = 34;

pub const NAME_AT: usize = 48;

pub const CONTENTS_AT: usize = 512;
