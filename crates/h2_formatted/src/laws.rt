ghost use Rattle.std.specs.Prelude.{ℕ};
ghost use Rattle.h2_num.specs.Places.{Places};
ghost use Rattle.h2_header.specs.declared.header.Header.{Header};
ghost use Rattle.h2_forest.specs.Forest.{fresh};
ghost use Rattle.h2_image.specs.NewVolume.{IsNewVolume};
ghost use Rattle.h2_image.specs.VolumeFormat.{IsNewest, IsFormatted};
ghost use Rattle.h2_meaning.specs.Image.{Stands};

/// A law: under the header of a new volume stands the forest of a formatted volume, the PFS `ROOT` with an empty root
/// directory. So it does under a newest header of an image that was formatted.
pub fn formatted_law()
    ensures stands { (image : Places) (h : Header) (zones : ℕ) → IsNewVolume image h zones → Stands image h.root h.next_pfs fresh }
    ensures formatted { (image : Places) (zones : ℕ) → IsFormatted zones image → (h : Header) × IsNewest image h × Stands image h.root h.next_pfs fresh }
{}
