ghost use Rattle.std.specs.Prelude.{◌≡◌, [], ◌∷◌, ℕ, Option, replicate};
ghost use Rattle.h2_num.specs.Places.{Places};
ghost use Rattle.h2_ref.specs.declared.reference.Ref.{Ref};
ghost use Rattle.h2_tree.specs.OtherTrees.{KeepsOtherLeaves};
ghost use Rattle.h2_inode.specs.declared.inode.Body.TheVariants.{Bytes};
ghost use Rattle.h2_inode.specs.Inode.{IsStorable, NoInode};
ghost use Rattle.h2_inode.specs.Loaded.{BlocksOne, HoldsOn, HoldsBut};
ghost use Rattle.h2_worked_rows.specs.Trees.{two_roots};
ghost use Rattle.h2_worked_rows.specs.Views.{any_block, known_block, empty_view, fifth_view, with_new_leaf, with_new_block};

/// Laws: where the bytes of each reference's block are known there is one block at most, and not where any would do. An
/// inode that is held at root 1 alone is a change there, and nowhere else.
pub fn worked_views_law()
    ensures one { (blocks : Ref → Option Places) → BlocksOne (known_block blocks) }
    ensures not_one { BlocksOne any_block → ⊥ }
    ensures same { HoldsOn fifth_view fifth_view }
    ensures but_one { HoldsBut 1 empty_view fifth_view }
    ensures not_same { HoldsOn empty_view fifth_view → ⊥ }
    ensures not_but_other { HoldsBut 0 empty_view fifth_view → ⊥ }
{}

/// Laws: where the block of inode 5 gets a new place, a change of root 1 keeps the leaves of other trees to which it
/// doesn't belong. Where a block of the file in root 1 gets one, a change of root 0 doesn't keep them.
pub fn worked_leaves_law()
    ensures kept { KeepsOtherLeaves two_roots with_new_leaf 1 }
    ensures not_kept { KeepsOtherLeaves two_roots with_new_block 0 → ⊥ }
{}

/// Laws: a body of 512 bytes may be stored, and none of fewer. Zeros spell no inode.
pub fn worked_bodies_law()
    ensures whole { IsStorable (Bytes (replicate 512 0)) }
    ensures too_short { IsStorable (Bytes (5 ∷ [])) → ⊥ }
    ensures no_inode { NoInode (λ k. 0) }
{}
