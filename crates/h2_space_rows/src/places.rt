ghost use Rattle.std.specs.Prelude.{◌≡◌};
ghost use Rattle.h2_geom.specs.Geometry.{IsReserved};
ghost use Rattle.h2_geom.specs.Places.{header_place, turn_of, map_place, IsMapBlock, IsApart};
ghost use Rattle.h2_codes.specs.Packed.{NoneFreeIn, IsFirstFree, IsSpread};
ghost use Rattle.h2_space_rows.specs.MapBlocks.{map_block};

/// Laws: where headers and blocks of the freemap lie, in bytes, and whose turn a checkpoint is. There is no fourth level,
/// no zone 512 and no fifth copy. A node lies behind the leaf of its zone. The first 256 chunks of a zone are reserved.
pub fn worked_places_law()
    ensures slot { header_place 3 ≡ 100663296 }
    ensures first_turn { turn_of 1 ≡ 0 }
    ensures last_turn { turn_of 4 ≡ 3 }
    ensures next_round { turn_of 5 ≡ 0 }
    ensures leaf { map_place (map_block 0 2 3) ≡ 67223552 }
    ensures node { map_place (map_block 1 8 1) ≡ 268518400 }
    ensures top { map_place (map_block 2 64 2) ≡ 2147584000 }
    ensures last_leaf { IsMapBlock (map_block 0 511 3) }
    ensures last_node { IsMapBlock (map_block 2 448 3) }
    ensures not_level { IsMapBlock (map_block 3 0 0) → ⊥ }
    ensures not_zone { IsMapBlock (map_block 0 512 0) → ⊥ }
    ensures not_copy { IsMapBlock (map_block 0 0 4) → ⊥ }
    ensures apart { IsApart (map_place (map_block 0 0 0)) 1024 (map_place (map_block 1 0 0)) 1024 }
    ensures not_apart { IsApart 65536 1024 66559 1024 → ⊥ }
    ensures reserved { IsReserved 2303 }
    ensures not_reserved { IsReserved 2304 → ⊥ }
{}

/// Laws: a word whose chunk 0 is used and chunk 1 staged, with all others free, has chunk 2 as its first free one, and
/// from chunk 5 on chunk 5. The flags of chunks 0 and 2 are spread to bits 0 and 4.
pub fn worked_words_law()
    ensures none { NoneFreeIn 0 2 11 }
    ensures first { IsFirstFree 0 11 2 }
    ensures later { IsFirstFree 5 11 5 }
    ensures not_used { IsFirstFree 0 11 0 → ⊥ }
    ensures not_least { IsFirstFree 0 11 3 → ⊥ }
    ensures not_past { IsFirstFree 32 11 32 → ⊥ }
    ensures spread { IsSpread 5 17 }
    ensures not_unspread { IsSpread 5 5 → ⊥ }
{}
