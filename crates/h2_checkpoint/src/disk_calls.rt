ghost use Rattle.std.specs.Prelude.{◌≡◌, ◌≤◌, ◌+◌, ◌^◌, ℕ, length, IsTrue, IfErr, OnOk, OnErr, All};
ghost use Rattle.h2_num.specs.Places.{Same, SameOutside};
ghost use Rattle.h2_num.specs.Causes.{one_more};
ghost use Rattle.h2_disk.specs.Disk.{HasCause, CountsWants, Keeps, Syncs, Writes};
ghost use Rattle.h2_checkpoint.specs.Queue.{InEntries, overlay_all};
ghost use Rattle.h2_checkpoint.specs.Stands.{disk_state};
ghost use Rattle.h2_checkpoint.specs.Steps.{queue_of, WritesPieces, FailsToWritePieces, SecuresBlocks, FailsToSync, SendsHeader, FailsToSend, CompletesCheckpoint};

use crate::format::VolumeFormat;
use crate::piece::Piece;
use h2_disk::{Disk, DiskFault};

/// Writes the pieces in their order.
pub(crate) fn write_pieces<D: Disk, V: VolumeFormat>(
    disk: &mut D,
    pieces: &[Piece],
) -> Result<(), DiskFault>
    requires { All (λ piece. piece.at + length piece.bytes ≤ 2 ^ 34) pieces.now }
    ensures writes { OnOk result (IsTrue D.tells → WritesPieces V.format pieces.now
        (disk_state D.image D.moment D.trace disk.old) (disk_state D.image D.moment D.trace disk.new)) }
    ensures set_back { OnErr result (IsTrue D.tells → FailsToWritePieces V.format pieces.now
        (disk_state D.image D.moment D.trace disk.old) (disk_state D.image D.moment D.trace disk.new)) }
    ensures image { OnOk result (IsTrue D.tells → Same (overlay_all (queue_of pieces.now) (D.image disk.old)) (D.image disk.new)) }
    ensures elsewhere { OnErr result (IsTrue D.tells
        → (k : ℕ) → (InEntries (queue_of pieces.now) k → ⊥) → D.image disk.new k ≡ D.image disk.old k) }
    ensures time { OnOk result (D.moment disk.new ≡ D.moment disk.old + length pieces.now) }
    ensures time_failed { OnErr result (D.moment disk.old ≤ D.moment disk.new) }
    ensures time_most { OnErr result (D.moment disk.new ≤ D.moment disk.old + length pieces.now) }
    ensures later { D.faults disk.old ≤ D.faults disk.new }
    ensures cause { IfErr result (λ fault. HasCause (D.faults disk.old) (D.faults disk.new) fault) }
    ensures memory { CountsWants (D.wants disk.old) (D.wants disk.new) result }
{
    for piece in pieces {
        if let Err(fault) = disk.write(piece.at, piece.bytes.as_slice()) {
            return Err(fault);
        }
    }
    Ok(())
}

// Makes all that was written durable.
fn settle<D: Disk>(disk: &mut D) -> Result<(), DiskFault>
    ensures synced { OnOk result (IsTrue D.tells → Syncs (D.moment disk.new)
        (D.image disk.old) (D.image disk.new) (D.trace disk.old) (D.trace disk.new)) }
    ensures failed { OnErr result (IsTrue D.tells → Keeps
        (D.image disk.old) (D.image disk.new) (D.trace disk.old) (D.trace disk.new)) }
    ensures time { OnOk result (D.moment disk.new ≡ D.moment disk.old + 2) }
    ensures time_failed { OnErr result (D.moment disk.new ≡ one_more (D.moment disk.old)) }
    ensures later { D.faults disk.old ≤ D.faults disk.new }
    ensures cause { IfErr result (λ fault. HasCause (D.faults disk.old) (D.faults disk.new) fault) }
    ensures memory { CountsWants (D.wants disk.old) (D.wants disk.new) result }
{
    disk.sync()
}

/// Makes the pieces that were written durable.
pub(crate) fn sync_blocks<D: Disk, V: VolumeFormat>(disk: &mut D) -> Result<(), DiskFault>
    ensures syncs { OnOk result (IsTrue D.tells → Syncs (D.moment disk.new)
        (D.image disk.old) (D.image disk.new) (D.trace disk.old) (D.trace disk.new)) }
    ensures secures { OnOk result (IsTrue D.tells → SecuresBlocks V.format
        (disk_state D.image D.moment D.trace disk.old) (disk_state D.image D.moment D.trace disk.new)) }
    ensures set_back { OnErr result (IsTrue D.tells → FailsToSync V.format
        (disk_state D.image D.moment D.trace disk.old) (disk_state D.image D.moment D.trace disk.new)) }
    ensures image { IsTrue D.tells → Same (D.image disk.old) (D.image disk.new) }
    ensures time { OnOk result (D.moment disk.new ≡ D.moment disk.old + 2) }
    ensures time_failed { OnErr result (D.moment disk.new ≡ one_more (D.moment disk.old)) }
    ensures later { D.faults disk.old ≤ D.faults disk.new }
    ensures cause { IfErr result (λ fault. HasCause (D.faults disk.old) (D.faults disk.new) fault) }
    ensures memory { CountsWants (D.wants disk.old) (D.wants disk.new) result }
{
    if let Err(fault) = settle(disk) {
        return Err(fault);
    }
    Ok(())
}

/// Writes the header.
pub(crate) fn write_header<D: Disk, V: VolumeFormat>(
    disk: &mut D,
    place: u64,
    header: &[u8],
) -> Result<(), DiskFault>
    requires { place + length header.now ≤ 2 ^ 34 }
    ensures sends { OnOk result (IsTrue D.tells → SendsHeader V.format place header.now
        (disk_state D.image D.moment D.trace disk.old) (disk_state D.image D.moment D.trace disk.new)) }
    ensures set_back { OnErr result (IsTrue D.tells → FailsToSend V.format place header.now
        (disk_state D.image D.moment D.trace disk.old) (disk_state D.image D.moment D.trace disk.new)) }
    ensures writes { OnOk result (IsTrue D.tells → Writes (D.moment disk.new) place header.now
        (D.image disk.old) (D.image disk.new) (D.trace disk.old) (D.trace disk.new)) }
    ensures elsewhere { IsTrue D.tells → SameOutside place (length header.now) (D.image disk.old) (D.image disk.new) }
    ensures time { OnOk result (D.moment disk.new ≡ D.moment disk.old + 1) }
    ensures time_failed { OnErr result (D.moment disk.new ≡ one_more (D.moment disk.old)) }
    ensures later { D.faults disk.old ≤ D.faults disk.new }
    ensures cause { IfErr result (λ fault. HasCause (D.faults disk.old) (D.faults disk.new) fault) }
    ensures memory { CountsWants (D.wants disk.old) (D.wants disk.new) result }
{
    if let Err(fault) = disk.write(place, header) {
        return Err(fault);
    }
    Ok(())
}

/// Makes the header that was written durable, and so completes its checkpoint.
pub(crate) fn sync_header<D: Disk, V: VolumeFormat>(disk: &mut D) -> Result<(), DiskFault>
    ensures completes { OnOk result (IsTrue D.tells → CompletesCheckpoint V.format
        (disk_state D.image D.moment D.trace disk.old) (disk_state D.image D.moment D.trace disk.new)) }
    ensures set_back { OnErr result (IsTrue D.tells → FailsToSync V.format
        (disk_state D.image D.moment D.trace disk.old) (disk_state D.image D.moment D.trace disk.new)) }
    ensures syncs { OnOk result (IsTrue D.tells → Syncs (D.moment disk.new)
        (D.image disk.old) (D.image disk.new) (D.trace disk.old) (D.trace disk.new)) }
    ensures image { IsTrue D.tells → Same (D.image disk.old) (D.image disk.new) }
    ensures time { OnOk result (D.moment disk.new ≡ D.moment disk.old + 2) }
    ensures time_failed { OnErr result (D.moment disk.new ≡ one_more (D.moment disk.old)) }
    ensures later { D.faults disk.old ≤ D.faults disk.new }
    ensures cause { IfErr result (λ fault. HasCause (D.faults disk.old) (D.faults disk.new) fault) }
    ensures memory { CountsWants (D.wants disk.old) (D.wants disk.new) result }
{
    if let Err(fault) = settle(disk) {
        return Err(fault);
    }
    Ok(())
}
