ghost use Rattle.std.specs.Prelude.{◌≡◌, ◌↔◌, IsTrue, IfOk, All};
ghost use Rattle.h2_command.specs.Lawful.{IsLawfulItem};
ghost use Rattle.h2_forest.specs.Landing.{newest_mark, newest_item, durable_by, is_out_mark, is_out_item, is_out_by, IsLanding, is_freeze_mark, is_freeze, frozen_forest};

use crate::forest::Forest;
use crate::replaying::pass_over;
use h2_command::{History, Item, Mark};
use h2_num::NoMemory;
use std::alloc::Global;

fn newest_mark(moment: u64, newest: u64, mark: &Mark) -> u64
    ensures { result ≡ newest_mark moment newest mark.now }
{
    let Mark::HeaderDone { number, moment: at } = mark else {
        return newest;
    };
    if *at <= moment {
        return newest.max(*number);
    }
    newest
}

/// The newest header that is durable by a moment, after one more item.
fn newest_item(moment: u64, newest: u64, item: &Item) -> u64
    ensures { result ≡ newest_item moment newest item.now }
{
    match item {
        Item::Call(_) => newest,
        Item::Mark(mark) => newest_mark(moment, newest, mark),
    }
}

/// The greatest number whose header was durable by a moment, or the opening header's.
fn durable_by(opened: u64, items: &[Item], moment: u64) -> u64
    ensures { result ≡ durable_by moment opened items.now }
{
    let mut newest = opened;
    for item in items {
        newest = newest_item(moment, newest, item);
    }
    newest
}

fn is_out_mark(moment: u64, number: u64, mark: &Mark) -> bool
    ensures { result ≡ is_out_mark moment number mark.now }
{
    match mark {
        Mark::HeaderOut {
            number: n,
            moment: at,
        } => *n == number && *at <= moment,
        _ => false,
    }
}

fn is_out_item(moment: u64, number: u64, item: &Item) -> bool
    ensures { result ≡ is_out_item moment number item.now }
{
    match item {
        Item::Call(_) => false,
        Item::Mark(mark) => is_out_mark(moment, number, mark),
    }
}

/// Whether a write of the header with a number had begun by a moment.
fn is_out_by(items: &[Item], moment: u64, number: u64) -> bool
    ensures { result ≡ is_out_by moment number items.now }
{
    for item in items {
        if is_out_item(moment, number, item) {
            return true;
        }
    }
    false
}

/// Whether a power cut at a moment may leave the header with a number as the newest, by the history of a run
/// that was opened with a header: it was durable by then, or it is the next one and a write of it had begun.
pub fn may_land(opened: u64, items: &[Item], moment: u64, number: u64) -> bool
    ensures { IsTrue result ↔ IsLanding opened items.now moment number }
{
    let newest = durable_by(opened, items, moment);
    if number == newest {
        return true;
    }
    if number == 0 {
        return false;
    }
    if number - 1 != newest {
        return false;
    }
    is_out_by(items, moment, number)
}

fn is_freeze(number: u64, item: &Item) -> bool
    ensures { result ≡ is_freeze number item.now }
{
    let Item::Mark(Mark::Freeze { number: n, .. }) = item else {
        return false;
    };
    *n == number
}

/// The forest that was frozen for the header with a number, in a run that began without handles, if there is a
/// mark of it; for the opening header the first forest. Each item of the history is lawful. The error is want
/// of memory.
pub fn frozen_forest(
    alloc: Global,
    opened: u64,
    first: Forest,
    history: &History,
    number: u64,
) -> Result<Option<Forest>, NoMemory>
    requires { All IsLawfulItem history.now.items }
    ensures { IfOk result (λ found. found ≡ frozen_forest opened first history.now.items number) }
{
    if number == opened {
        return Ok(Some(first));
    }
    let mut forest = first;
    forest.close_all(alloc);
    for item in history.items() {
        if is_freeze(number, item) {
            return Ok(Some(forest));
        }
        let _ = pass_over(alloc, &mut forest, item)?;
    }
    Ok(None)
}
