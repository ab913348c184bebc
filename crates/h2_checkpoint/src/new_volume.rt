ghost use Rattle.std.specs.Prelude.{◌≡◌, ◌≤◌, ◌+◌, ◌^◌, length, IsTrue, IfErr, OnOk, OnErr, All};
ghost use Rattle.h2_num.specs.Places.{Same};
ghost use Rattle.h2_disk.specs.Trace.{IsDurable};
ghost use Rattle.h2_disk.specs.Disk.{HasCause, CountsWants};
ghost use Rattle.h2_checkpoint.specs.Stands.{disk_state};
ghost use Rattle.h2_checkpoint.specs.Steps.{image_with, SameElsewhere};
ghost use Rattle.h2_checkpoint.specs.Making.{MakesSafely, Makes};

use crate::format::VolumeFormat;
use crate::piece::Piece;
use crate::whole_flush::drive;
use h2_disk::{Disk, DiskFault};

/// Makes a volume where there is none, by one whole flush.
///
/// Where the pieces and the header are those of a first checkpoint, a power cut at any moment leaves no
/// header, or the planned volume. At Ok the volume stands and is durable. With n pieces the header's
/// write begins at the moment n + 3 after the call's start, or the last moment, and a cut before leaves no
/// header. A call that is Ok ends at n + 5, and one that fails at n + 4 or before. A fault is the disk's
/// own, and memory is wanting exactly where the disk answered so.
pub fn make<D: Disk, V: VolumeFormat>(
    disk: &mut D,
    pieces: &[Piece],
    place: u64,
    header: &[u8],
) -> Result<(), DiskFault>
    requires pieces_fit { All (λ piece. piece.at + length piece.bytes ≤ 2 ^ 34) pieces.now }
    requires header_fits { place + length header.now ≤ 2 ^ 34 }
    ensures cuts { IsTrue D.tells → MakesSafely V.format pieces.now place header.now
        (disk_state D.image D.moment D.trace disk.old) (disk_state D.image D.moment D.trace disk.new) }
    ensures makes { OnOk result (IsTrue D.tells
        → Makes V.format pieces.now place header.now (D.image disk.old) (D.image disk.new)) }
    ensures image { OnOk result (IsTrue D.tells
        → Same (image_with pieces.now place header.now (D.image disk.old)) (D.image disk.new)) }
    ensures durable { OnOk result (IsTrue D.tells → IsDurable (D.trace disk.new) (D.image disk.new)) }
    ensures elsewhere { IsTrue D.tells
        → SameElsewhere pieces.now place (length header.now) (D.image disk.old) (D.image disk.new) }
    ensures time { OnOk result (D.moment disk.new ≡ D.moment disk.old + length pieces.now + 5) }
    ensures time_failed { OnErr result (D.moment disk.old ≤ D.moment disk.new) }
    ensures time_most { OnErr result (D.moment disk.new ≤ D.moment disk.old + length pieces.now + 4) }
    ensures later { D.faults disk.old ≤ D.faults disk.new }
    ensures cause { IfErr result (λ fault. HasCause (D.faults disk.old) (D.faults disk.new) fault) }
    ensures memory { CountsWants (D.wants disk.old) (D.wants disk.new) result }
{
    if let Err(fault) = drive::<D, V>(disk, pieces, place, header) {
        return Err(fault);
    }
    Ok(())
}
