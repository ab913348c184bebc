ghost use Rattle.std.specs.Prelude.{◌≡◌, ℕ};
ghost use Rattle.h2_num.specs.Places.{Places, AreBytes, SameBelow};
ghost use Rattle.h2_header.specs.Header.{HeadBytes, IsHeader, IsHeaderAt, NoHeaderAt};
ghost use Rattle.h2_header.specs.Fault.{IsHeadFault};
ghost use Rattle.h2_header.specs.declared.fault.HeadFault.{HeadFault};
ghost use Rattle.h2_header.specs.declared.header.Header.{Header};

/// A law: a header has one spelling, a block spells one header at most, and which one is seen by its
/// 65536 bytes alone.
pub fn header_law()
    ensures one_spelling { (h : Header) (a b : Places) → AreBytes a → AreBytes b → IsHeader h
        → HeadBytes h a → HeadBytes h b → SameBelow 65536 a b }
    ensures one_value { (g h : Header) (b : Places) → IsHeader g → IsHeader h
        → HeadBytes g b → HeadBytes h b → g ≡ h }
    ensures local { (slot : ℕ) (h : Header) (a b : Places) → SameBelow 65536 a b
        → IsHeaderAt slot a h → IsHeaderAt slot b h }
{}

/// A law: a block that meets a refusal is no header of its slot, and it meets one refusal at most.
pub fn refusal_law()
    ensures refused { (slot : ℕ) (b : Places) (f : HeadFault) → IsHeadFault slot b f → NoHeaderAt slot b }
    ensures one_fault { (slot : ℕ) (b : Places) (f g : HeadFault) → IsHeadFault slot b f → IsHeadFault slot b g → g ≡ f }
{}
