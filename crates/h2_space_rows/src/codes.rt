ghost use Rattle.h2_codes.specs.declared.code.Code.TheVariants.{Free, Reserved, Staged, Used};
ghost use Rattle.h2_freeleaf.specs.ChunkCode.{CodeOf};
ghost use Rattle.h2_space_rows.specs.Leaves.{leaf_image, leaf_header};

use h2_freeleaf::code_law;

/// Laws: in an image with the leaf of zone 0, whose first segment is reserved and whose second one has a used chunk, a
/// staged one and free ones, chunks of that zone have these codes. A used one isn't free, and a staged one isn't used.
/// The first chunk past the volume isn't free.
pub fn worked_codes_law()
    ensures reserved { CodeOf leaf_image leaf_header 0 Reserved }
    ensures last_reserved { CodeOf leaf_image leaf_header 255 Reserved }
    ensures used { CodeOf leaf_image leaf_header 256 Used }
    ensures staged { CodeOf leaf_image leaf_header 257 Staged }
    ensures free { CodeOf leaf_image leaf_header 258 Free }
    ensures last_free { CodeOf leaf_image leaf_header 2047 Free }
    ensures not_free { CodeOf leaf_image leaf_header 256 Free → ⊥ }
    ensures not_used { CodeOf leaf_image leaf_header 257 Used → ⊥ }
    ensures past_volume { CodeOf leaf_image leaf_header 8192 Free → ⊥ }
{
    code_law();
}
