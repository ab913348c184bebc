ghost use Rattle.std.specs.Prelude.{◌≡◌};
ghost use Rattle.h2_freemap.specs.Need.{need_of};
ghost use Rattle.h2_image.specs.NewVolume.{map_block_count};
ghost use Rattle.h2_space_rows.specs.Needs.{mounted, two_taken};

/// Laws: what blocks need where no chunk has a cursor, as after mounting. Three inodes share a chunk. A file of 5
/// content blocks has one indirect block beside them, and one of 33 has eight. Where the chunk of the small blocks has
/// two of them, 14 more need no chunk, and 15 need one; the middle ones need chunks of their own.
pub fn worked_needs_law()
    ensures nothing { need_of 0 0 0 mounted ≡ 0 }
    ensures inodes { need_of 3 0 0 mounted ≡ 1 }
    ensures inodes_and_block { need_of 3 0 1 mounted ≡ 2 }
    ensures five_blocks { need_of 3 1 5 mounted ≡ 7 }
    ensures many_blocks { need_of 3 8 33 mounted ≡ 36 }
    ensures full_chunk { need_of 16 4 0 mounted ≡ 2 }
    ensures one_more { need_of 17 5 0 mounted ≡ 4 }
    ensures in_cursor { need_of 14 0 0 two_taken ≡ 0 }
    ensures past_cursor { need_of 15 0 0 two_taken ≡ 1 }
    ensures past_next { need_of 31 5 3 two_taken ≡ 7 }
{}

/// Laws: how many blocks the freemap of a volume has. Up to 8 zones these are their leaves, up to 64 also the nodes of
/// level 1, one for eight leaves that are there or begun, and above that also the nodes of level 2.
pub fn worked_map_counts_law()
    ensures least { map_block_count 4 ≡ 4 }
    ensures leaves { map_block_count 8 ≡ 8 }
    ensures two_nodes { map_block_count 9 ≡ 11 }
    ensures nodes { map_block_count 64 ≡ 72 }
    ensures two_levels { map_block_count 65 ≡ 76 }
    ensures most { map_block_count 512 ≡ 584 }
{}
