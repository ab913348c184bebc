ghost use Rattle.std.specs.Prelude.{ℕ, ◌++◌, ◌<◌};
ghost use Rattle.h2_num.specs.Places.{Places};
ghost use Rattle.h2_header.specs.declared.header.Header.{Header};
ghost use Rattle.h2_checkpoint.specs.Slots.{IsSlot, InSlot};
ghost use Rattle.h2_checkpoint.specs.Format.{IsLawful, ReachesByte};
ghost use Rattle.h2_image.specs.NewVolume.{IsNewVolume};
ghost use Rattle.h2_image.specs.NewLeafLaws.{HasNewLeaf};
ghost use Rattle.h2_image.specs.VolumeFormat.{volume};

/// A law: what the format of volumes says of blocks, headers and volumes depends on their bytes alone, so
/// that the law of checkpoints holds of it.
pub fn format_law()
    ensures { IsLawful volume }
{}

/// A law: no byte of a block that a new volume reaches lies in a slot of headers.
pub fn new_volume_law()
    ensures { (image : Places) (h : Header) (zones : ℕ) → IsNewVolume image h zones → (s k : ℕ) → IsSlot s → ReachesByte volume image (h.root ++ h.map) k → InSlot s k → ⊥ }
{}

/// A law: the leaf of each zone of a new volume stands at its place in the first copy of the freemap, with the
/// codes of a new volume, also where the header names nodes.
pub fn new_leaf_law()
    ensures { (image : Places) (h : Header) (zones : ℕ) → IsNewVolume image h zones → (zone : ℕ) → zone < zones → HasNewLeaf image zone }
{}
