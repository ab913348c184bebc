ghost use Rattle.h2_freemap.specs.Need.{NeedIsUsed, NeedIsEnough, NeedGrows, NeedIsAtMost, NeedSplits, TakesOnlyUse};

/// A law of need and take. Taking blocks, in any order, makes as many free chunks used as their need
/// says, and changes no other code. While the need of them all is at most what is free, each of them may
/// be taken at its turn. After some were taken, one after another with nothing in between, the need of all
/// is what those used and what the others need now. More blocks need no fewer chunks, and none need more
/// than they fill alone.
pub fn need_law()
    ensures used { NeedIsUsed }
    ensures enough { NeedIsEnough }
    ensures only { TakesOnlyUse }
    ensures grows { NeedGrows }
    ensures at_most { NeedIsAtMost }
    ensures splits { NeedSplits }
{}
