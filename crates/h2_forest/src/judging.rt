ghost use Rattle.std.specs.Prelude.{◌≡◌, ◌↔◌, ◌<◌, ◌^◌, ℕ, IsTrue, IfOk, All, length};
ghost use Rattle.h2_command.specs.Lawful.{IsLawfulItem};
ghost use Rattle.h2_forest.specs.History.{Legal, RepliesAreRight, FaultsRise, CountsUp, NeverFalls, phase_of, moment_of, FlushesInOrder, ScansAreLate, PassesInOrder};

use crate::flush_order::flushes_are_in_order;
use crate::forest::Forest;
use crate::item_order::{faults_rise, indices_count_up, moments_never_fall, phases_never_fall};
use crate::legality::{Legality, Opening};
use crate::pass_order::{passes_are_in_order, scans_are_late};
use crate::replay_result::Replay;
use crate::replaying::replay;
use h2_command::History;
use h2_num::NoMemory;
use std::alloc::Global;

/// Judges a history of a volume that was opened with a first forest, whose handles don't count: which parts
/// of what makes it legal hold. The history has fewer than 2^32 items, and each is lawful. The error is want of memory.
pub fn judge(
    alloc: Global,
    opening: Opening,
    first: Forest,
    history: &History,
) -> Result<Legality, NoMemory>
    requires lawful { All IsLawfulItem history.now.items }
    requires short { length history.now.items < 2 ^ 32 }
    ensures replies { IfOk result (λ l. IsTrue l.replies ↔ RepliesAreRight first history.now.items) }
    ensures faults { IfOk result (λ l. IsTrue l.faults ↔ FaultsRise history.now.items) }
    ensures indices { IfOk result (λ l. IsTrue l.indices ↔ ((client : ℕ) → CountsUp client history.now.items)) }
    ensures phases { IfOk result (λ l. IsTrue l.phases ↔ NeverFalls phase_of history.now.items) }
    ensures flushes { IfOk result (λ l. IsTrue l.flushes ↔ FlushesInOrder opening.number history.now.items) }
    ensures moments { IfOk result (λ l. IsTrue l.moments ↔ NeverFalls moment_of history.now.items) }
    ensures scans { IfOk result (λ l. IsTrue l.scans ↔ ScansAreLate history.now.items) }
    ensures passes { IfOk result (λ l. IsTrue l.passes ↔ PassesInOrder opening history.now.items) }
{
    let items = history.items();
    let scans = scans_are_late(alloc, items)?;
    let told = replay(alloc, first, history)?;
    Ok(Legality {
        replies: is_same(told),
        faults: faults_rise(items),
        indices: indices_count_up(items),
        phases: phases_never_fall(items),
        flushes: flushes_are_in_order(opening.number, items),
        moments: moments_never_fall(items),
        scans,
        passes: passes_are_in_order(opening, items),
    })
}

/// Whether a history is legal for a volume that was opened so with a first forest. The history has fewer
/// than 2^32 items, and each is lawful. The error is want of memory.
pub fn is_legal(
    alloc: Global,
    opening: Opening,
    first: Forest,
    history: &History,
) -> Result<bool, NoMemory>
    requires lawful { All IsLawfulItem history.now.items }
    requires short { length history.now.items < 2 ^ 32 }
    ensures { IfOk result (λ legal. IsTrue legal ↔ Legal opening first history.now.items) }
{
    let legality = judge(alloc, opening, first, history)?;
    Ok(legality.is_legal())
}

fn is_same(told: Replay) -> bool
    ensures { IsTrue result ↔ (told ≡ Replay.Same) }
{
    match told {
        Replay::Same => true,
        Replay::Differs(_) => false,
    }
}
