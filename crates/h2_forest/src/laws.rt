ghost use Rattle.std.specs.Prelude.{◌≡◌, ℕ, List, [], length};
ghost use Rattle.h2_command.specs.declared.command.Command.{Command};
ghost use Rattle.h2_command.specs.declared.history.Item.{Item};
ghost use Rattle.h2_command.specs.Lawful.{Lawful};
ghost use Rattle.h2_forest.specs.Forest.{PlainForest, answer, fresh, clean};
ghost use Rattle.h2_forest.specs.Ids.{IdsAscend, NamesDiffer, NamesAreGood, NumbersBelow};
ghost use Rattle.h2_forest.specs.Whole.{Script, Whole, called, asked_from};
ghost use Rattle.h2_forest.specs.WholeExample.{two_phases, five_places, five_entries, four_entries};

/// Laws: in a fresh forest the PFSs stand in the order of their ids, below the next one, and each command keeps
/// that.
pub fn ids_law()
    ensures fresh { IdsAscend fresh }
    ensures kept { (f : PlainForest) (client : ℕ) (command : Command) → IdsAscend f → IdsAscend (answer f client command).1 }
{}

/// Laws: in a fresh forest the names of PFSs differ, and each command keeps that; a command that a script can hold
/// keeps them good.
pub fn names_law()
    ensures fresh { NamesDiffer fresh }
    ensures kept { (f : PlainForest) (client : ℕ) (command : Command) → NamesDiffer f → NamesDiffer (answer f client command).1 }
    ensures fresh_good { NamesAreGood fresh }
    ensures kept_good { (f : PlainForest) (client : ℕ) (command : Command) → Lawful command → NamesAreGood f → NamesAreGood (answer f client command).1 }
{}

/// Laws: in a fresh forest each inode has a number below the next one of its PFS, and each command keeps that.
pub fn numbers_law()
    ensures fresh { NumbersBelow fresh }
    ensures kept { (f : PlainForest) (client : ℕ) (command : Command) → NumbersBelow f → NumbersBelow (answer f client command).1 }
{}

/// Laws: a history whose entries are the script's commands in their places is whole for it, and one that is whole
/// has as many entries as the script has commands.
pub fn whole_law()
    ensures in_order { (h : List Item) (script : Script) → called h ≡ asked_from 0 [] script → Whole h script }
    ensures counted { (h : List Item) (script : Script) → Whole h script → length (called h) ≡ length (asked_from 0 [] script) }
{}

/// Laws: a worked script of two phases and two clients. The places of its five commands; a run of all five, with
/// another order of two clients, is whole for it, and one in which a command has no entry isn't.
pub fn whole_example_law()
    ensures places { asked_from 0 [] two_phases ≡ five_places }
    ensures whole { Whole five_entries two_phases }
    ensures wanting { Whole four_entries two_phases → ⊥ }
{}
