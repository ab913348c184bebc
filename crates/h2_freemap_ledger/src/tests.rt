use crate::freemap_law;
use h2_ledger::BlockSet;
use h2_num::Block;

/// A set of blocks as a list.
#[derive(Drop)]
struct Blocks {
    items: Vec<Block>,
}

impl BlockSet for Blocks {
    ghost use Rattle.std.specs.List.{Contains};

    ghost has = { λ b s. Contains s.items.items b };
}

/// The law holds of lists of blocks.
#[test]
fn law_of_lists() {
    freemap_law::<Blocks>();
}
