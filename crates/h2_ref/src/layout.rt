/// The bytes of a reference.
pub const REF_BYTES: usize = 128;

/// The bytes of the check area, in which a short name stands.
pub const AREA_BYTES: usize = 64;

// Places of its fields, in bytes.
pub const KIND_AT: usize = 0;

pub const METHOD_AT: usize = 1;

pub const KEYBITS_AT: usize = 2;

pub const FLAGS_AT: usize = 3;

pub const FLAGS_END: usize = 4;

pub const KEY_AT: usize = 8;

pub const PLACE_AT: usize = 16;

pub const ID_AT: usize = 24;

pub const NUMBER_AT: usize = 32;

pub const LEN_AT: usize = 40;

pub const TARGET_AT: usize = 42;

pub const TARGET_END: usize = 43;

pub const AREA_AT: usize = 64;
