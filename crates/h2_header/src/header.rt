use h2_ref::Ref;

/// How many slots for headers a volume has.
pub const SLOTS: usize = h2_geom::SLOTS as usize;

/// The bytes of a slot.
pub const HEADER_BYTES: usize = h2_geom::HEADER_BYTES as usize;

/// What a volume header says.
#[derive(Clone, Copy, Debug, PartialEq, Eq)]
pub struct Header {
    /// The number of the checkpoint that wrote it, from 1 on.
    pub number: u64,
    /// How many zones of 32 MiB the volume has.
    pub zones: u32,
    /// The number of the checkpoint that wrote the freemap.
    pub map_number: u64,
    /// The id of the next PFS.
    pub next_pfs: u64,
    /// The super-root, a set of references.
    pub root: [Ref; 4],
    /// The references of the freemap.
    pub map: [Ref; 8],
}
