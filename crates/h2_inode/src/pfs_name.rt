ghost use Rattle.std.specs.Prelude.{◌≡◌, ◌≤◌, ◌<◌, [], length, MatchOption};

use arrayvec::ArrayVec;
use h2_dirkey::PFS_NAME_BYTES;
use std::marker::Model;

/// The name of a PFS, seen as the list of its bytes, at most 64; the empty one is no name.
#[derive(Drop)]
pub struct PfsName {
    bytes: ArrayVec<u8, PFS_NAME_BYTES>,
}

impl Model for PfsName {
    ghost use Rattle.std.specs.Prelude.{List, ℕ, length, ◌≤◌};

    ghost Value = { List ℕ };

    ghost view = { λ n. n.bytes.items };

    ghost invariant = { λ n. length n.bytes.items ≤ 64 };
}

impl PfsName {
    /// No name.
    pub fn empty() -> PfsName
        ensures { result ≡ [] }
    {
        PfsName {
            bytes: ArrayVec::new(),
        }
    }

    /// The name with these bytes. None exactly where there are more than 64.
    pub fn from_slice(name: &[u8]) -> Option<PfsName>
        ensures { MatchOption result (64 < length name.now) (λ n. n ≡ name.now) }
    {
        if name.len() > PFS_NAME_BYTES {
            return None;
        }
        let mut bytes = ArrayVec::new();
        for byte in name {
            bytes.push(*byte);
        }
        Some(PfsName { bytes })
    }

    /// Its bytes.
    pub fn as_slice(&self) -> &[u8]
        ensures bytes { result.now ≡ self.now }
        ensures few { length result.now ≤ 64 }
    {
        &self.bytes
    }
}
