ghost use Rattle.std.specs.Prelude.{◌≡◌, [], ◌∷◌, true, false};
ghost use Rattle.h2_codes.specs.declared.code.Code.TheVariants.{Free, Reserved, Staged, Used};
ghost use Rattle.h2_codes.specs.Packed.{AllBytes, codes_in, bytes_of, flags_in, flag_bytes};

/// Laws: the byte 5 has the flags of chunks 0 and 2 of eight, and they have it; fewer than eight flags have no byte. The
/// byte 228 has each of the four codes, the least in its lowest bits. 255 is a byte, and 256 isn't.
pub fn worked_bytes_law()
    ensures flags { flags_in (5 ∷ []) ≡ true ∷ false ∷ true ∷ false ∷ false ∷ false ∷ false ∷ false ∷ [] }
    ensures flagged { flag_bytes (true ∷ false ∷ true ∷ false ∷ false ∷ false ∷ false ∷ false ∷ []) ≡ 5 ∷ [] }
    ensures too_few { flag_bytes (true ∷ false ∷ true ∷ []) ≡ [] }
    ensures codes { codes_in (228 ∷ []) ≡ Free ∷ Reserved ∷ Staged ∷ Used ∷ [] }
    ensures coded { bytes_of (Free ∷ Reserved ∷ Staged ∷ Used ∷ []) ≡ 228 ∷ [] }
    ensures is_byte { AllBytes (255 ∷ []) }
    ensures not_byte { AllBytes (256 ∷ []) → ⊥ }
{}
