ghost use Rattle.std.specs.Prelude.{◌≡◌, [], ◌∷◌};
ghost use Rattle.std.specs.FinMap.{empty};
ghost use Rattle.h2_command.specs.declared.command.Command.TheVariants.{ReadAt};
ghost use Rattle.h2_command.specs.declared.reply.Reply.TheVariants.{Got, NoHandle};
ghost use Rattle.h2_forest.specs.Forest.{answer};
ghost use Rattle.h2_consistent.specs.Handles.{HasFile, HandlesStand, IsOpen, OrphansAreOpen, HasNoOrphans, IsRead};
ghost use Rattle.h2_worked_rows.specs.Forests.{file_forest, one_handle};

/// Laws: PFS 1 has a file of number 2 with the bytes 5, 6 and 7, and handle 0 of client 0 names it. It stands, and number
/// 3, and PFS 2, have none. A read of two bytes from place 1 gives 6 and 7; handle 1 isn't open, and is answered so.
pub fn worked_handles_law()
    ensures file { HasFile (file_forest 1 empty) 1 2 }
    ensures no_number { HasFile (file_forest 1 empty) 1 3 → ⊥ }
    ensures no_pfs { HasFile (file_forest 1 empty) 2 2 → ⊥ }
    ensures stands { HandlesStand (file_forest 1 (one_handle 1 2)) }
    ensures none { HandlesStand (file_forest 1 empty) }
    ensures dangling { HandlesStand (file_forest 1 (one_handle 1 3)) → ⊥ }
    ensures is_open { IsOpen (file_forest 1 (one_handle 1 2)) 1 2 }
    ensures not_open { IsOpen (file_forest 1 (one_handle 1 2)) 1 3 → ⊥ }
    ensures reply { (answer (file_forest 1 (one_handle 1 2)) 0 (ReadAt 0 1 2)).0 ≡ Got (6 ∷ 7 ∷ []) }
    ensures refused { (answer (file_forest 1 (one_handle 1 2)) 0 (ReadAt 1 1 2)).0 ≡ NoHandle }
    ensures read { IsRead (file_forest 1 (one_handle 1 2)) 0 0 1 2 }
    ensures not_read { IsRead (file_forest 1 (one_handle 1 2)) 0 1 1 2 → ⊥ }
{}

/// Laws: a file without a link that a handle names is open; without the handle it isn't. With one link it is no orphan.
pub fn worked_orphans_law()
    ensures is_open { OrphansAreOpen (file_forest 0 (one_handle 1 2)) }
    ensures closed { OrphansAreOpen (file_forest 0 empty) → ⊥ }
    ensures other_open { OrphansAreOpen (file_forest 0 (one_handle 1 3)) → ⊥ }
    ensures linked { HasNoOrphans (file_forest 1 empty) }
    ensures linked_open { OrphansAreOpen (file_forest 1 empty) }
    ensures orphan { HasNoOrphans (file_forest 0 (one_handle 1 2)) → ⊥ }
{}
