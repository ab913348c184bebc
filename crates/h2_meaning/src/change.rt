/// A change from one way to read trees to another, as a type that stands for it: a block is loaded, say, or a
/// node is altered.
pub trait Change {
    ghost use Rattle.h2_inode.specs.Following.{Passage};

    ghost passage: { Passage };
}
