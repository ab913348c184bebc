ghost use Rattle.std.specs.Prelude.{◌≡◌, ◌↔◌, IsTrue};
ghost use Rattle.h2_forest.specs.History.{IsFlushStep, flush_step, IsFlushItem, after_flush_item, FlushesInOrder};

use crate::legality::{Flush, Stage};
use h2_command::{Item, Mark};

fn is_flush_step(flush: Flush, mark: &Mark) -> bool
    ensures { IsTrue result ↔ IsFlushStep flush mark.now }
{
    match mark {
        Mark::Freeze { number, .. } => match flush.stage {
            Stage::Durable => *number > 0 && *number - 1 == flush.number,
            _ => false,
        },
        Mark::HeaderOut { number, .. } => match flush.stage {
            Stage::Durable => false,
            _ => *number == flush.number,
        },
        Mark::HeaderDone { number, .. } => match flush.stage {
            Stage::Out => *number == flush.number,
            _ => false,
        },
        _ => true,
    }
}

fn flush_step(flush: Flush, mark: &Mark) -> Flush
    ensures { result ≡ flush_step flush mark.now }
{
    match mark {
        Mark::Freeze { number, .. } => Flush {
            number: *number,
            stage: Stage::Frozen,
        },
        Mark::HeaderOut { .. } => Flush {
            number: flush.number,
            stage: Stage::Out,
        },
        Mark::HeaderDone { .. } => Flush {
            number: flush.number,
            stage: Stage::Durable,
        },
        _ => flush,
    }
}

fn is_flush_item(flush: Flush, item: &Item) -> bool
    ensures { IsTrue result ↔ IsFlushItem flush item.now }
{
    match item {
        Item::Call(_) => true,
        Item::Mark(mark) => is_flush_step(flush, mark),
    }
}

fn after_flush_item(flush: Flush, item: &Item) -> Flush
    ensures { result ≡ after_flush_item flush item.now }
{
    match item {
        Item::Call(_) => flush,
        Item::Mark(mark) => flush_step(flush, mark),
    }
}

/// Whether flushes stand one after the other, from the opening header's number on.
pub fn flushes_are_in_order(opened: u64, items: &[Item]) -> bool
    ensures { IsTrue result ↔ FlushesInOrder opened items.now }
{
    let mut flush = Flush {
        number: opened,
        stage: Stage::Durable,
    };
    for item in items {
        if !is_flush_item(flush, item) {
            return false;
        }
        flush = after_flush_item(flush, item);
    }
    true
}
