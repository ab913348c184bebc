ghost use Rattle.std.specs.Prelude.{⊤, ◌≡◌, [], ◌∷◌, codes};

use bitflags::{Flag, Flags, bitflag_items};

/// The flags of a reference.
#[derive(Clone, Copy, Debug, PartialEq, Eq)]
pub struct RefFlags(u8);

impl RefFlags {
    /// No flag.
    pub const NONE: RefFlags = RefFlags(0);
}

bitflag_items! {
    impl RefFlags: u8 {
        /// The name of the entry stands in the reference.
        const INLINE = 1;
    }
}

impl Flags for RefFlags {
    type Bits = u8;

    ghost exact = { ⊤ };

    ghost table = { (codes "INLINE", 1) ∷ [] };

    ghost set_of = { λ f. f.0 };

    fn flags<'a>() -> &'a [Flag<RefFlags>] {
        RefFlags::FLAGS
    }

    fn bits(&self) -> u8 {
        self.0
    }

    fn from_bits_retain(bits: u8) -> RefFlags {
        RefFlags(bits)
    }
}
