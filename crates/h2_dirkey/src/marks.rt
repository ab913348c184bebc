ghost use Rattle.std.specs.Prelude.{◌≡◌, ◌<◌, ◌↔◌, ℕ, length, IsTrue};
ghost use Rattle.h2_dirkey.specs.Marks.{IsMarked, MarksOne};

/// How many marks there are.
pub const MARKS: usize = 32768;

const WORD_BITS: usize = 64;

/// A mark for each number below `MARKS`, in 4096 bytes.
#[derive(Drop)]
pub struct Marks {
    words: [u64; MARKS / WORD_BITS],
    ghost whole: { length words ≡ 512 },
}

impl Marks {
    /// None is set.
    pub fn new() -> Marks
        ensures { (k : ℕ) → IsMarked result.words k → ⊥ }
    {
        Marks {
            words: [0; MARKS / WORD_BITS],
        }
    }

    /// Sets one.
    pub fn mark(&mut self, c: usize)
        requires { c < 32768 }
        ensures { MarksOne c self.old.words self.new.words }
    {
        self.words[c / WORD_BITS] |= 1 << (c % WORD_BITS);
    }

    /// Whether one is set.
    pub fn is_marked(&self, c: usize) -> bool
        requires { c < 32768 }
        ensures { IsTrue result ↔ IsMarked self.now.words c }
    {
        self.words[c / WORD_BITS] >> (c % WORD_BITS) & 1 == 1
    }
}
