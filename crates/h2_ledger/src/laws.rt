ghost use Rattle.h2_ledger.specs.Laws.{
  OpensSound,
  KeepsSound,
  RunsSound,
  ReservedStays,
  TakesApart,
  GrantsApart,
  EventTakesApart,
  EventTakesDistinct,
  TakesSinceApart,
  OpensApart,
  KeepsApart,
  RunsApart,
  UnmarkedLapses,
  LeavesFree,
  RunsLeaveFree,
  AppliesAllOrRuns,
  AppliesOnce,
  FreesTwiceUnmarked,
  FreesAfterTwoPasses,
};

use crate::BlockSet;

/// The law of space. From an opened volume on, in whatever order moves are made, nothing in use counts as
/// free, and what is taken shares no byte with what is in use or was marked by the running pass.
///
/// - `opens`, `keeps`, `runs`: an opened ledger is sound, each move keeps it sound, and so does each list.
/// - `reserved`: a reserved chunk stays reserved, and no other chunk becomes so.
/// - `takes`, `grants`: a block that is about to be taken shares no byte with one that is in use or marked,
///   nor with one that was before some moves, also where these let go of it.
/// - `event`, `distinct`: what the moves of one event take shares no byte with what was in use or marked
///   before the event, nor with each other.
/// - `since`: while a pass runs, what is taken after its freeze shares no byte with what it marked there.
/// - `opens_apart`, `keeps_apart`, `runs_apart`: what is fresh or queued, that is, taken since the last
///   freeze or waiting to be written by the flush under way, shares no byte with what a header leads to or
///   the pass marked.
pub fn space_law<S: BlockSet>()
    ensures opens { OpensSound S.has }
    ensures keeps { KeepsSound S.has }
    ensures runs { RunsSound S.has }
    ensures reserved { ReservedStays S.has }
    ensures takes { TakesApart S.has }
    ensures grants { GrantsApart S.has }
    ensures event { EventTakesApart S.has }
    ensures distinct { EventTakesDistinct S.has }
    ensures since { TakesSinceApart S.has }
    ensures opens_apart { OpensApart S.has }
    ensures keeps_apart { KeepsApart S.has }
    ensures runs_apart { RunsApart S.has }
{}

/// The law of one pass of bulkfree. A pass that marked nothing in a chunk stages it where it was used and
/// frees it where it was staged. Else a free chunk stays free, and a staged one stays staged or becomes
/// free, unless a block is taken or adopted in it, or a pass that marked it applies its segment.
pub fn bulkfree_law<S: BlockSet>()
    ensures lapses { UnmarkedLapses S.has }
    ensures leaves { LeavesFree S.has }
    ensures runs_leave { RunsLeaveFree S.has }
{}

/// The law of two passes of bulkfree. No pass ends half-applied, and none applies a segment twice; and a
/// chunk that isn't reserved, that two successive complete passes find unmarked, and in which no block is
/// taken or adopted between their applies of its segment, is free after the second.
pub fn two_pass_law<S: BlockSet>()
    ensures all_or_runs { AppliesAllOrRuns S.has }
    ensures once { AppliesOnce S.has }
    ensures twice { FreesTwiceUnmarked S.has }
    ensures two_passes { FreesAfterTwoPasses S.has }
{}
