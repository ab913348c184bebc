ghost use Rattle.h2_freemap_ledger.specs.Laws.{TakeMoves, TakeIsGranted, AdoptMoves, ApplyMoves, PaidIsFree, ReservationPays};

use h2_freemap::need_law;
use h2_ledger::BlockSet;

/// The law of the freemap and the ledger of space.
///
/// - `take`, `adopt`, `apply`: what these calls of the freemap do to codes and cursors is the move of that
///   name, once pins, reservations and the pass do their part.
/// - `granted`: what is taken is what the ledger grants before anything has changed, and so shares no byte
///   with what is in use or marked.
/// - `paid`: what is paid for is free, so that `take` may be called.
/// - `pays`: a reservation of what some blocks need pays for each of them at its turn, where they are taken
///   one after another, with nothing in between.
pub fn freemap_law<S: BlockSet>()
    ensures take { TakeMoves S.has }
    ensures granted { TakeIsGranted S.has }
    ensures adopt { AdoptMoves S.has }
    ensures apply { ApplyMoves S.has }
    ensures paid { PaidIsFree S.has }
    ensures pays { ReservationPays }
{
    need_law();
}
