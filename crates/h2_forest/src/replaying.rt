ghost use Rattle.std.specs.Prelude.{IfOk, OnErr, OnOk, ◌<◌, ◌^◌, ◌≡◌, ◌↔◌, IsTrue, All, length, ◌&&◌};
ghost use Rattle.h2_command.specs.Lawful.{Lawful, IsLawfulItem};
ghost use Rattle.h2_command.specs.Commands.{is_bulkfree};
ghost use Rattle.h2_forest.specs.History.{is_bulk, StandsFor, IsRight, IsRightEntry, after_item};
ghost use Rattle.h2_forest.specs.Replay.{IsReplay};

use crate::forest::Forest;
use crate::replay_result::Replay;
use h2_command::{Command, Entry, History, Item, Reply};
use h2_num::NoMemory;
use std::alloc::Global;

/// Whether a reply is a Bulk to a bulkfree.
fn is_bulk_of(command: &Command, reply: &Reply) -> bool
    ensures { result ≡ (is_bulkfree command.now && is_bulk reply.now) }
{
    let Command::Bulkfree = command else {
        return false;
    };
    match reply {
        Reply::Bulk { .. } => true,
        _ => false,
    }
}

fn is_done(reply: &Reply) -> bool
    ensures { IsTrue result ↔ (reply.now ≡ Reply.Done) }
{
    match reply {
        Reply::Done => true,
        _ => false,
    }
}

/// Whether a reply stands for the forest's.
fn stands_for(command: &Command, reply: &Reply, due: &Reply) -> bool
    ensures { IsTrue result ↔ StandsFor command.now reply.now due.now }
{
    if is_bulk_of(command, reply) {
        return is_done(due);
    }
    reply.is_same(due)
}

/// Whether an entry is right; and the forest after it. Want of memory leaves it as it was.
fn enter(alloc: Global, forest: &mut Forest, entry: &Entry) -> Result<bool, NoMemory>
    requires client { entry.now.client < 8 }
    requires lawful { Lawful entry.now.command }
    ensures right { IfOk result (λ right. IsTrue right ↔ IsRightEntry forest.old entry.now) }
    ensures after { OnOk result (forest.new ≡ after_item forest.old (Item.Call entry.now)) }
    ensures err { OnErr result (forest.new ≡ forest.old) }
{
    if entry.reply.is_outside() {
        return Ok(true);
    }
    let due = forest.apply(alloc, entry.client, &entry.command)?;
    Ok(stands_for(&entry.command, &entry.reply, &due))
}

/// Whether an item is right; and the forest after it. Want of memory leaves it as it was.
pub fn pass_over(alloc: Global, forest: &mut Forest, item: &Item) -> Result<bool, NoMemory>
    requires { IsLawfulItem item.now }
    ensures right { IfOk result (λ right. IsTrue right ↔ IsRight forest.old item.now) }
    ensures after { OnOk result (forest.new ≡ after_item forest.old item.now) }
    ensures err { OnErr result (forest.new ≡ forest.old) }
{
    match item {
        Item::Call(entry) => enter(alloc, forest, entry),
        Item::Mark(_) => Ok(true),
    }
}

/// Runs the commands of a history over a forest again, without the handles that it had: whether each reply is
/// the forest's, or the place of the first that isn't. A refusal from outside changes nothing, and a Bulk stands for Done as the reply to
/// a bulkfree. The history has fewer than 2^32 items, and each is lawful. The error is want of memory.
pub fn replay(alloc: Global, start: Forest, history: &History) -> Result<Replay, NoMemory>
    requires lawful { All IsLawfulItem history.now.items }
    requires short { length history.now.items < 2 ^ 32 }
    ensures { IfOk result (λ told. IsReplay told start history.now.items) }
{
    let mut forest = start;
    forest.close_all(alloc);
    let mut at = 0;
    for item in history.items() {
        if !pass_over(alloc, &mut forest, item)? {
            return Ok(Replay::Differs(at));
        }
        at += 1;
    }
    Ok(Replay::Same)
}
