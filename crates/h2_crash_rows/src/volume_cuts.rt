ghost use Rattle.h2_checkpoint.specs.Stands.{MayBeCut};
ghost use Rattle.h2_checkpoint.specs.Toy.{toy};
ghost use Rattle.h2_crash_rows.specs.Mounts.{image_made};
ghost use Rattle.h2_crash_rows.specs.VolumeCuts.{header_calls, block_calls, with_second, with_block, trace_of};

/// Laws: while header 2 is written into slot 1 of a volume with header 1, a cut may leave the slot as it was, or header
/// 2, or bytes that are no header, and no header that is torn of the two, nor header 2 before its write began. Where the
/// block of header 1 is written again with its own byte, that byte stays, as do all bytes that aren't written.
pub fn worked_volume_cuts_law()
    ensures old { MayBeCut toy image_made header_calls (trace_of header_calls) 5 image_made }
    ensures new { MayBeCut toy image_made header_calls (trace_of header_calls) 5 (with_second 2 1) }
    ensures no_header { MayBeCut toy image_made header_calls (trace_of header_calls) 5 (with_second 0 1) }
    ensures torn { MayBeCut toy image_made header_calls (trace_of header_calls) 5 (with_second 2 0) → ⊥ }
    ensures too_early { MayBeCut toy image_made header_calls (trace_of header_calls) 4 (with_second 2 1) → ⊥ }
    ensures elsewhere { MayBeCut toy image_made header_calls (trace_of header_calls) 5 (with_block 8) → ⊥ }
    ensures kept { MayBeCut toy image_made block_calls (trace_of block_calls) 5 image_made }
    ensures not_kept { MayBeCut toy image_made block_calls (trace_of block_calls) 5 (with_block 8) → ⊥ }
{}
