//! The bottom of the volume: numbers in bytes, owned bytes and names, and the definitions that every
//! crate above cites.
//!
//! Contracts see bytes by their places: a slice, a block or a disk image is the function from places
//! to bytes (`specs/Places`), and a field is a little-endian number at a place. A count that rose is
//! what each fault of the outside has as its cause (`specs/Causes`).
#![tactic(auto)]

mod block;
mod bytes;
mod fields;
mod memory;
mod names;

pub use block::Block;
pub use bytes::Bytes;
pub use fields::{clear, first_nonzero, get16, get32, get64, put_bytes, put8, put16, put32, put64};
pub use memory::NoMemory;
pub use names::{Name, Names};

#[cfg(test)]
mod tests;
