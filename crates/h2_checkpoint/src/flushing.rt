ghost use Rattle.std.specs.Prelude.{◌≡◌, ◌≤◌, ◌+◌, ◌^◌, length, IsTrue, IfErr, All};
ghost use Rattle.h2_disk.specs.Disk.{HasCause, CountsWants};
ghost use Rattle.h2_checkpoint.specs.Stands.{disk_state};
ghost use Rattle.h2_checkpoint.specs.Steps.{StepsFlush, StepsImage, Advances, Ticks, EndsDurable, SameElsewhere};

use crate::disk_calls::{sync_blocks, sync_header, write_header};
use crate::format::VolumeFormat;
use crate::next::{Next, Stepped};
use crate::piece::Piece;
use h2_disk::{Disk, DiskFault};
use h2_num::Bytes;

/// A flush under way: what it writes, and which call comes next.
#[derive(Drop)]
pub struct Flushing {
    /// What is written before the header, in this order.
    pub pieces: Vec<Piece>,
    /// The place of the header's slot.
    pub place: u64,
    /// The header's bytes.
    pub header: Bytes,
    /// The call that comes next.
    pub next: Next,
}

impl Flushing {
    /// Makes the next call of the disk: writes one piece, or makes all of them durable, writes the
    /// header, or makes it durable. A fault is the disk's own, and sets the flush back to its first
    /// piece. It takes no memory of its own: memory is wanting exactly where the disk answered so.
    pub fn step<D: Disk, V: VolumeFormat>(&mut self, disk: &mut D) -> Result<Stepped, DiskFault>
        requires pieces_fit { All (λ piece. piece.at + length piece.bytes ≤ 2 ^ 34) self.old.pieces.items }
        requires header_fits { self.old.place + length self.old.header ≤ 2 ^ 34 }
        ensures pieces { self.new.pieces ≡ self.old.pieces }
        ensures place { self.new.place ≡ self.old.place }
        ensures header { self.new.header ≡ self.old.header }
        ensures advances { Advances self.old.next (length self.old.pieces.items) self.new.next result }
        ensures steps { IsTrue D.tells
            → StepsFlush V.format self.old.pieces.items self.old.place self.old.header self.old.next self.new.next
            (disk_state D.image D.moment D.trace disk.old) (disk_state D.image D.moment D.trace disk.new) result }
        ensures image { IsTrue D.tells → StepsImage self.old.pieces.items self.old.place self.old.header self.old.next result
            (D.image disk.old) (D.image disk.new) }
        ensures elsewhere { IsTrue D.tells → SameElsewhere self.old.pieces.items self.old.place
            (length self.old.header) (D.image disk.old) (D.image disk.new) }
        ensures durable { IsTrue D.tells → EndsDurable result (disk_state D.image D.moment D.trace disk.new) }
        ensures time { Ticks result (D.moment disk.old) (D.moment disk.new) }
        ensures later { D.faults disk.old ≤ D.faults disk.new }
        ensures cause { IfErr result (λ fault. HasCause (D.faults disk.old) (D.faults disk.new) fault) }
        ensures memory { CountsWants (D.wants disk.old) (D.wants disk.new) result }
    {
        match self.next {
            Next::Pieces(k) => {
                if k < self.pieces.len() {
                    let piece = &self.pieces[k];
                    if let Err(fault) = disk.write(piece.at, piece.bytes.as_slice()) {
                        self.next = Next::Pieces(0);
                        return Err(fault);
                    }
                    self.next = Next::Pieces(k + 1);
                    return Ok(Stepped::Wrote);
                }
                if let Err(fault) = sync_blocks::<D, V>(disk) {
                    self.next = Next::Pieces(0);
                    return Err(fault);
                }
                self.next = Next::Header;
                Ok(Stepped::Synced)
            }
            Next::Header => {
                if let Err(fault) = write_header::<D, V>(disk, self.place, self.header.as_slice()) {
                    self.next = Next::Pieces(0);
                    return Err(fault);
                }
                self.next = Next::Finish;
                Ok(Stepped::Out)
            }
            Next::Finish => {
                if let Err(fault) = sync_header::<D, V>(disk) {
                    self.next = Next::Pieces(0);
                    return Err(fault);
                }
                Ok(Stepped::Done)
            }
        }
    }
}
