use h2_num::{Name, Names};

/// A path: the name of a PFS, and the names that lead on from its root directory.
#[derive(Drop, Debug)]
pub struct Path {
    pub pfs: Name,
    pub names: Names,
}
