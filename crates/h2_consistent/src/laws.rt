ghost use Rattle.std.specs.Prelude.{◌≡◌, ℕ, List, Some, false, true};
ghost use Rattle.std.specs.FinMap.{contains_key};
ghost use Rattle.h2_command.specs.declared.command.Command.{Command};
ghost use Rattle.h2_command.specs.declared.history.Item.{Item};
ghost use Rattle.h2_forest.specs.Forest.{PlainForest, answer, fresh, trim, closed, clean};
ghost use Rattle.h2_forest.specs.Ids.{IdsAscend};
ghost use Rattle.h2_forest.specs.History.{forest_at};
ghost use Rattle.h2_forest.specs.Landing.{frozen_forest};
ghost use Rattle.h2_consistent.specs.Consistent.{AreConsistent};
ghost use Rattle.h2_consistent.specs.Handles.{HandlesStand, IsRead, OrphansAreOpen, HasNoOrphans};

/// Laws: the forest of a formatted volume is consistent. Each command keeps that, whatever it answers, and so does
/// closing all handles and taking out files without a link; then the forest at each place of a history is consistent
/// where the first one is, and so is the one that was frozen for a header.
pub fn consistent_law()
    ensures fresh { AreConsistent fresh }
    ensures kept { (f : PlainForest) (client : ℕ) (command : Command) → AreConsistent f → AreConsistent (answer f client command).1 }
    ensures trimmed { (f : PlainForest) → AreConsistent f → AreConsistent (trim f) }
    ensures closed { (f : PlainForest) → AreConsistent f → AreConsistent (closed f) }
    ensures cleaned { (f : PlainForest) → AreConsistent f → AreConsistent (clean f) }
    ensures history { (items : List Item) (first : PlainForest) (i : ℕ) → AreConsistent first → AreConsistent (forest_at items first i) }
    ensures frozen { (opened : ℕ) (first : PlainForest) (items : List Item) (n : ℕ) (f : PlainForest) → AreConsistent first → frozen_forest opened first items n ≡ Some f → AreConsistent f }
{}

/// Laws: in the forest of a formatted volume each open handle names a file that stands, and each command keeps that
/// in a consistent forest, whatever it answers; after closing all, none is open. Taking out the files without a link
/// keeps it, and leaves only those that a handle names; where the handles were closed before, none is left. So it
/// holds at each place of a history, which begins without handles, and of the forest that was frozen for a header. A
/// read by an open handle is then answered with the bytes of the file that it names, where the PFSs stand in the
/// order of their ids.
pub fn handles_law()
    ensures fresh { HandlesStand fresh }
    ensures kept { (f : PlainForest) (client : ℕ) (command : Command) → AreConsistent f → HandlesStand f → HandlesStand (answer f client command).1 }
    ensures trimmed { (f : PlainForest) → HandlesStand f → HandlesStand (trim f) }
    ensures closed { (f : PlainForest) → HandlesStand (closed f) }
    ensures none_open { (f : PlainForest) (client handle : ℕ) → contains_key (closed f).handles (client, handle) ≡ false }
    ensures cleaned { (f : PlainForest) → HandlesStand (clean f) }
    ensures orphans { (f : PlainForest) → OrphansAreOpen (trim f) }
    ensures no_orphans { (f : PlainForest) → HasNoOrphans (clean f) }
    ensures read { (f : PlainForest) (client handle off len : ℕ) → IdsAscend f → HandlesStand f → contains_key f.handles (client, handle) ≡ true → IsRead f client handle off len }
    ensures history { (items : List Item) (first : PlainForest) (i : ℕ) → AreConsistent first → HandlesStand (forest_at items first i) }
    ensures frozen { (opened : ℕ) (first : PlainForest) (items : List Item) (n : ℕ) (f : PlainForest) → AreConsistent first → HandlesStand first → frozen_forest opened first items n ≡ Some f → HandlesStand f }
{}
