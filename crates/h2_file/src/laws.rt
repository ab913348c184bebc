ghost use Rattle.std.specs.Prelude.{◌≡◌, ◌≤◌, ◌<◌, ◌+◌, ◌⊎◌, ℕ, List, Option, Some, length, slice_get, max};
ghost use Rattle.h2_num.specs.Places.{Places};
ghost use Rattle.h2_ref.specs.declared.reference.Ref.{Ref};
ghost use Rattle.h2_contents.specs.Bytes.{written_at};
ghost use Rattle.h2_file.specs.declared.blocks.Touched.{Touched};
ghost use Rattle.h2_file.specs.Touching.{IsEmbedded, IsTouched};
ghost use Rattle.h2_file.specs.Linking.{AreBlocks};
ghost use Rattle.h2_file.specs.FileContents.{IsBlockOf, LinksBytes, CoversBytes};
ghost use Rattle.h2_file.specs.Writing.{AreOfTouched, IsMerged, ReadsBlock};

/// A law: what a write of some bytes makes of a file. What `read_block` found has the bytes of a whole block, or all of
/// them are zeros. Where that is done for each block that `touched` names, and `merge` laid the written bytes into it,
/// the blocks are what `link_blocks` asks for of the file with these bytes written: of no byte else a block is wanted.
/// Of the bytes that leave the inode, none is lost.
pub fn written_law()
    ensures read { (blocks : Ref → Option Places) (size : ℕ) (bytes : List ℕ) (start : ℕ) (found : Option Ref)
        → IsBlockOf blocks size bytes start found → ReadsBlock blocks bytes start found }
    ensures links { (blocks : Ref → Option Places) (t : Touched) (rs : List Ref) (bytes written : List ℕ) (off : ℕ)
        → 0 < length written → IsTouched (length bytes) off (length written) t
        → (IsEmbedded (max (length bytes) (off + length written)) → ⊥) → AreBlocks rs → AreOfTouched t rs
        → ((i : ℕ) (r : Ref) → slice_get rs i ≡ Some r → IsMerged blocks bytes off written r)
        → LinksBytes blocks rs (max (length bytes) (off + length written)) bytes (written_at bytes off written) }
    ensures covers { (t : Touched) (rs : List Ref) (bytes : List ℕ) (off len : ℕ)
        → IsTouched (length bytes) off len t → (IsEmbedded (max (length bytes) (off + len)) → ⊥)
        → AreBlocks rs → AreOfTouched t rs → length bytes ≤ 512 → CoversBytes rs bytes }
{}
