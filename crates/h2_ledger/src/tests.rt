use crate::{BlockSet, bulkfree_law, space_law, two_pass_law};
use h2_num::Block;
use std::vec::Vec;

/// A set of blocks as a list.
#[derive(Drop)]
struct Blocks {
    items: Vec<Block>,
}

impl BlockSet for Blocks {
    ghost use Rattle.std.specs.List.{Contains};

    ghost has = { λ b s. Contains s.items.items b };
}

/// The laws hold of lists of blocks.
#[test]
fn laws_of_lists() {
    space_law::<Blocks>();
    bulkfree_law::<Blocks>();
    two_pass_law::<Blocks>();
}
