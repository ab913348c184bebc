ghost use Rattle.std.specs.Prelude.{◌<◌, ◌^◌};

use std::rt::Files;

mod calls;
mod transfer;

/// A disk over a file, which it opens or makes at its first read or write. It tells nothing of what the
/// file holds. Each error of the file is one fault, and it never answers that memory was wanting. A sync
/// before the file was opened opens nothing and succeeds.
#[derive(Drop)]
pub struct FileDisk<R: Files + Drop> {
    rt: R,
    path: String,
    file: Option<R::File>,
    faults: u64,
    moment: u64,
    ghost fits: { moment < 2 ^ 64 },
}
