/// A kind of sets of blocks, as a type that stands for it: which blocks are in a set.
///
/// Nothing else is asked of sets. They may be lists, or descriptions of what a tree reaches.
pub trait BlockSet {
    ghost use Rattle.h2_num.specs.declared.block.Block.{Block};

    ghost has: { Block → Self → Type 0 };
}
