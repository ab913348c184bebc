ghost use Rattle.std.specs.Prelude.{◌≡◌, [], ℕ};
ghost use Rattle.h2_inode.specs.Following.{Passage};
ghost use Rattle.h2_inode.specs.Loaded.{at_root, of_leaves, no_content, over_loads};
ghost use Rattle.h2_inode.specs.Others.{IsLeafRenewed, over_change, over_renewal};
ghost use Rattle.h2_worked_rows.specs.Refs.{block_at, fifth_leaf};
ghost use Rattle.h2_worked_rows.specs.Views.{fifth_view, new_leaf};

/// Laws: over loads, over a change and over a renewal the tree of root 1 is that of root 1 and no other. The leaf of inode
/// 5, of which something is loaded, may have a new place; it doesn't become another leaf.
pub fn worked_passages_law()
    ensures loads { let p : Passage = over_loads fifth_view fifth_view no_content in p.Matches (at_root 1) (at_root 1) }
    ensures not_loads { let p : Passage = over_loads fifth_view fifth_view no_content in p.Matches (at_root 1) (at_root 0) → ⊥ }
    ensures change { let p : Passage = over_change fifth_view fifth_view (λ m. m ≡ 1) no_content in p.Matches (at_root 1) (at_root 1) }
    ensures not_change { let p : Passage = over_change fifth_view fifth_view (λ m. m ≡ 1) no_content in p.Matches (at_root 1) (of_leaves []) → ⊥ }
    ensures renewal { let p : Passage = over_renewal fifth_view fifth_view (λ m. m ≡ 1) no_content in p.Matches (at_root 1) (at_root 1) }
    ensures renewed { IsLeafRenewed fifth_view (at_root 0) fifth_leaf new_leaf }
    ensures not_renewed { IsLeafRenewed fifth_view (at_root 0) fifth_leaf (block_at 0) → ⊥ }
{}
