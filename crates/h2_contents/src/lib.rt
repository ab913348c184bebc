//! The contents of a file, seen as the list of its bytes.
//!
//! `specs/Bytes` says what a read, a write and a cut mean for a list of bytes, whatever keeps it. A file may
//! have 2^40 bytes: what was never written takes no memory, and what one write repeats over a page takes a
//! count and a byte. The pages of `specs/Pages` are how it is kept, and no clause of a public call names them.
#![tactic(auto)]

mod contents;
mod page;
mod pages;
mod payload;
mod writing;

pub use contents::Contents;
pub use payload::Payload;
