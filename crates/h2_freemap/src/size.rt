ghost use Rattle.std.specs.Prelude.{◌≡◌};
ghost use Rattle.h2_freemap.specs.Taking.{bytes_of, radix_of};

/// The sizes of blocks.
#[derive(Clone, Copy, Debug, PartialEq, Eq)]
pub enum Size {
    /// 1 KiB: an inode or a long name.
    Small,
    /// 4 KiB: an indirect block.
    Middle,
    /// 16 KiB, a whole chunk: contents.
    Whole,
}

impl Size {
    /// The bytes of a block of the size.
    pub fn bytes(self) -> u32
        ensures { result ≡ bytes_of self }
    {
        match self {
            Size::Small => 1024,
            Size::Middle => 4096,
            Size::Whole => 16384,
        }
    }

    /// The base-2 logarithm of the bytes.
    pub fn radix(self) -> u8
        ensures { result ≡ radix_of self }
    {
        match self {
            Size::Small => 10,
            Size::Middle => 12,
            Size::Whole => 14,
        }
    }
}
