//! The law of every flush of a copy-on-write volume: a power cut at any moment mounts the newest
//! completed checkpoint, or the one whose header was under way.
//!
//! A checkpoint is a header, the image that was frozen under it, and the forest that it stands for. A
//! flush writes its pieces, makes them durable, writes the header to the slot of its number, and makes
//! it durable. All of it is over any format of volumes (`specs/Format`) and any disk that tells its
//! image and its trace. Callers may rely on `StandsAt` (`specs/Stands`): where a volume stands on its
//! disk, and that a cut at each moment since the opening leaves what may be landed on. `stands_law` says how it
//! goes on beside the calls of flushes.
#![tactic(auto)]

mod disk_calls;
mod flushing;
mod format;
mod new_volume;
mod next;
mod piece;
mod whole_flush;

pub use flushing::Flushing;
pub use format::{VolumeFormat, crash_law, cut_law, stands_law};
pub use new_volume::make;
pub use next::{Next, Stepped};
pub use piece::Piece;
pub use whole_flush::drive;

#[cfg(test)]
mod tests;
