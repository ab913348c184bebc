//! Disks, and what a power cut may leave of them.
//!
//! A disk is seen as data: its image, and the trace of its writes and syncs with their moments. What a
//! cut may leave at each moment is a definition over the trace (`specs/Trace`). Callers are generic over
//! the trait `Disk` and rely on its clauses alone.
//!
//! `SureDisk` and `MemDisk` keep their bytes in memory, in pages of 16 KiB and once more in the record
//! of all writes and syncs, from which `MemDisk::cut` makes what a cut leaves. `FileDisk` works on a
//! file, and tells nothing of what it holds.
#![tactic(auto)]

mod choice;
mod disk;
mod entry;
mod file;
mod mem;
mod pages;
mod recording;
mod sure;
mod zeros;

pub use choice::Choice;
pub use disk::{Disk, DiskFault};
pub use file::FileDisk;
pub use mem::MemDisk;
pub use sure::SureDisk;

#[cfg(test)]
mod tests;
