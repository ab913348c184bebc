ghost use Rattle.h2_set.specs.Forest.{IsSound};
ghost use Rattle.h2_worked_rows.specs.Trees.{two_roots, without_fifth, with_leaf_twice, with_third_held};

/// Laws: the forest of the trees of a PFS and of its inode 5 is sound. It isn't where something belongs to the leaf of
/// inode 5 without the root of this inode, where the PFS's tree has two leaves with one key, or where what is held
/// doesn't stand.
pub fn worked_sound_forest_law()
    ensures sound { IsSound two_roots }
    ensures no_inode { IsSound without_fifth → ⊥ }
    ensures leaf_twice { IsSound with_leaf_twice → ⊥ }
    ensures held_away { IsSound with_third_held → ⊥ }
{}
