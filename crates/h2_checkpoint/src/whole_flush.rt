ghost use Rattle.std.specs.Prelude.{◌≡◌, ◌≤◌, ◌+◌, ◌^◌, length, IsTrue, IfErr, OnOk, OnErr, All};
ghost use Rattle.h2_num.specs.Places.{Same};
ghost use Rattle.h2_disk.specs.Trace.{IsDurable};
ghost use Rattle.h2_disk.specs.Disk.{HasCause, CountsWants};
ghost use Rattle.h2_checkpoint.specs.Stands.{disk_state};
ghost use Rattle.h2_checkpoint.specs.Steps.{Finishes, IsSetBack, image_with, SameElsewhere};

use crate::disk_calls::{sync_blocks, sync_header, write_header, write_pieces};
use crate::format::VolumeFormat;
use crate::piece::Piece;
use h2_disk::{Disk, DiskFault};

/// Makes all calls of a flush: writes the pieces in their order, makes them durable, writes the header
/// to its place, and makes it durable.
///
/// Where the pieces and the header are those of a frozen flush, the checkpoint is then completed, and
/// a fault sets the flush back to the start of its queue. With n pieces the header's write begins at the
/// moment n + 3 after the call's start, and its sync is done at n + 5. A fault up to n + 1 comes before
/// that write. A later one, up to n + 4, leaves the header under way since its write began, at n + 3 or
/// the last moment. A fault is the disk's own, and memory is wanting exactly where the disk answered so.
pub fn drive<D: Disk, V: VolumeFormat>(
    disk: &mut D,
    pieces: &[Piece],
    place: u64,
    header: &[u8],
) -> Result<(), DiskFault>
    requires pieces_fit { All (λ piece. piece.at + length piece.bytes ≤ 2 ^ 34) pieces.now }
    requires header_fits { place + length header.now ≤ 2 ^ 34 }
    ensures finishes { OnOk result (IsTrue D.tells → Finishes V.format pieces.now place header.now
        (disk_state D.image D.moment D.trace disk.old) (disk_state D.image D.moment D.trace disk.new)) }
    ensures set_back { OnErr result (IsTrue D.tells → IsSetBack V.format pieces.now place header.now
        (disk_state D.image D.moment D.trace disk.old) (disk_state D.image D.moment D.trace disk.new)) }
    ensures image { OnOk result (IsTrue D.tells
        → Same (image_with pieces.now place header.now (D.image disk.old)) (D.image disk.new)) }
    ensures durable { OnOk result (IsTrue D.tells → IsDurable (D.trace disk.new) (D.image disk.new)) }
    ensures elsewhere { OnErr result (IsTrue D.tells
        → SameElsewhere pieces.now place (length header.now) (D.image disk.old) (D.image disk.new)) }
    ensures time { OnOk result (D.moment disk.new ≡ D.moment disk.old + length pieces.now + 5) }
    ensures time_failed { OnErr result (D.moment disk.old ≤ D.moment disk.new) }
    ensures time_most { OnErr result (D.moment disk.new ≤ D.moment disk.old + length pieces.now + 4) }
    ensures later { D.faults disk.old ≤ D.faults disk.new }
    ensures cause { IfErr result (λ fault. HasCause (D.faults disk.old) (D.faults disk.new) fault) }
    ensures memory { CountsWants (D.wants disk.old) (D.wants disk.new) result }
{
    if let Err(fault) = write_pieces::<D, V>(disk, pieces) {
        return Err(fault);
    }
    if let Err(fault) = sync_blocks::<D, V>(disk) {
        return Err(fault);
    }
    if let Err(fault) = write_header::<D, V>(disk, place, header) {
        return Err(fault);
    }
    if let Err(fault) = sync_header::<D, V>(disk) {
        return Err(fault);
    }
    Ok(())
}
