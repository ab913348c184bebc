ghost use Rattle.std.specs.Prelude.{◌≡◌, ◌<◌, ◌^◌};
ghost use Rattle.h2_file.specs.Touching.{blocks_of};

/// The blocks of a file that a write puts anew.
#[derive(Clone, Copy, Debug, PartialEq, Eq)]
pub struct Touched {
    /// The number of the first block that the written range touches.
    pub first: u64,
    /// How many blocks the range touches, each next to the one before.
    pub count: u32,
    /// Whether block 0 is put as well, for the bytes that lay in the inode.
    pub lift: bool,
}

impl Touched {
    /// How many blocks are put: those of the range, and block 0 where bytes leave the inode for it.
    pub fn blocks(&self) -> u32
        requires { self.now.count < 2 ^ 31 }
        ensures { result ≡ blocks_of self.now }
    {
        if self.lift {
            return self.count + 1;
        }
        self.count
    }
}
