ghost use Rattle.std.specs.Prelude.{◌≡◌, ◌⊎◌, ◌↔◌, ◌++◌, ◌∷◌, [], All, IsTrue, IfOk, OnOk, OnErr};
ghost use Rattle.std.specs.List.{Contains};
ghost use Rattle.h2_ledger.specs.Ledger.{HasBlockIn};
ghost use Rattle.h2_plain_ledger.specs.State.{has, MayRelink};

use h2_geom::chunk_of;
use h2_num::{Block, NoMemory};
use std::alloc::Global;

/// Whether the block is in the list.
pub fn contains(blocks: &[Block], block: Block) -> bool
    ensures { IsTrue result ↔ Contains blocks.now block }
{
    blocks.contains(&block)
}

/// Whether the block is in one of two lists.
pub fn is_in_either(first: &[Block], second: &[Block], block: Block) -> bool
    ensures { IsTrue result ↔ (Contains first.now block ⊎ Contains second.now block) }
{
    if contains(first, block) {
        return true;
    }
    contains(second, block)
}

/// Whether each block is in one of two other lists.
pub fn all_within(blocks: &[Block], first: &[Block], second: &[Block]) -> bool
    ensures { IsTrue result ↔ All (λ b. Contains first.now b ⊎ Contains second.now b) blocks.now }
{
    for block in blocks {
        if !is_in_either(first, second, *block) {
            return false;
        }
    }
    true
}

/// Whether each block is in another list.
pub fn all_in(blocks: &[Block], others: &[Block]) -> bool
    ensures { IsTrue result ↔ All (Contains others.now) blocks.now }
{
    for block in blocks {
        if !contains(others, *block) {
            return false;
        }
    }
    true
}

/// Whether live blocks and pins may become these: whether nothing is live then that was neither live nor
/// pinned, and nothing pinned that wasn't.
pub fn may_relink(old_live: &[Block], old_pins: &[Block], live: &[Block], pins: &[Block]) -> bool
    ensures { IsTrue result ↔ MayRelink old_live.now old_pins.now live.now pins.now }
{
    if !all_within(live, old_live, old_pins) {
        return false;
    }
    all_in(pins, old_pins)
}

/// Whether a block of the list begins in the chunk.
pub fn has_block_in(blocks: &[Block], chunk: u32) -> bool
    ensures { IsTrue result ↔ HasBlockIn has blocks.now chunk }
{
    blocks
        .iter()
        .any(|block| block.place / 16384 == chunk as u64)
}

/// Puts the block at the end of both lists, or of neither.
pub fn push_both(
    first: &mut Vec<Block>,
    second: &mut Vec<Block>,
    block: Block,
) -> Result<(), NoMemory>
    ensures first { OnOk result (first.new.items ≡ first.old.items ++ block ∷ []) }
    ensures second { OnOk result (second.new.items ≡ second.old.items ++ block ∷ []) }
    ensures first_err { OnErr result (first.new.items ≡ first.old.items) }
    ensures second_err { OnErr result (second.new.items ≡ second.old.items) }
{
    first.push(block)?;
    if second.push(block).is_err() {
        first.pop();
        return Err(NoMemory);
    }
    Ok(())
}

/// A list of the blocks of both lists, in order.
pub fn joined(alloc: Global, first: &[Block], second: &[Block]) -> Result<Vec<Block>, NoMemory>
    ensures { IfOk result (λ all. all.items ≡ first.now ++ second.now) }
{
    let mut all = Vec::from_slice(alloc, first)?;
    all.extend_from_slice(second)?;
    Ok(all)
}
