ghost use Rattle.h2_consistent.specs.FileTree.{IsFileTree};
ghost use Rattle.h2_consistent.specs.Example.{two_names, names_nothing, names_root, beside_root};

/// Laws: a worked table, a root directory with two names of one file. With two links and a next number above the
/// file's the table is a file tree; with one link, three links or a lower next number it isn't. Nor is one with an entry
/// that names nothing or the root, or with a directory that no names lead to from the root.
pub fn example_law()
    ensures two_links { IsFileTree 3 (two_names 2) }
    ensures one_link { IsFileTree 3 (two_names 1) → ⊥ }
    ensures three_links { IsFileTree 3 (two_names 3) → ⊥ }
    ensures next_number { IsFileTree 2 (two_names 2) → ⊥ }
    ensures dangling { IsFileTree 3 names_nothing → ⊥ }
    ensures named_root { IsFileTree 3 names_root → ⊥ }
    ensures off_root { IsFileTree 3 beside_root → ⊥ }
{}
