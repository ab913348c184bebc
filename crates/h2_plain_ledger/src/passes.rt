ghost use Rattle.std.specs.Prelude.{◌≡◌, ◌↔◌, ◌*◌, ◌<◌, ◌≤◌, suc, IsTrue};
ghost use Rattle.h2_geom.specs.Geometry.{segment_chunks};
ghost use Rattle.h2_plain_ledger.specs.Steps.{MayEnd, IsPassAfter};

use h2_ledger::Pass;

/// Whether the pass may be given up.
pub fn may_end(pass: Pass) -> bool
    ensures { IsTrue result ↔ MayEnd pass }
{
    match pass {
        Pass::Idle => false,
        Pass::Begun | Pass::Marked { .. } => true,
        Pass::Scanning { applied, .. } => applied == 0,
    }
}

/// The pass after it has applied a segment of a volume of so many chunks.
pub fn pass_after(number: u64, segment: u32, chunks: usize) -> Pass
    requires within { segment_chunks * suc segment ≤ chunks }
    requires few { chunks ≤ 1048576 }
    ensures { IsPassAfter number segment chunks result }
{
    let applied = segment + 1;
    if 256 * (applied as usize) < chunks {
        return Pass::Scanning { number, applied };
    }
    Pass::Idle
}
