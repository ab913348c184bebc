ghost use Rattle.std.specs.Prelude.{◌≡◌, ◌++◌, ℕ, List, IfOk, OnOk, map};
ghost use Rattle.std.specs.List.{flat_map};
ghost use Rattle.h2_command.specs.declared.history.Item.{Item};
ghost use Rattle.h2_script.specs.Texts.{line_of, entries_of, IsByPlace, IsText};

use crate::reply_text::put_reply;
use h2_command::{Entry, History, Item};
use h2_num::{Bytes, NoMemory};
use std::alloc::{AllocError, Global};

fn put_line(alloc: Global, out: &mut Vec<u8>, entry: &Entry) -> Result<(), AllocError>
    ensures { OnOk result (out.new.items ≡ out.old.items ++ line_of entry.now) }
{
    let place = format!(in alloc; "{} {} ", entry.client, entry.index)?;
    out.extend_from_slice(place.as_bytes())?;
    put_reply(alloc, out, &entry.reply)?;
    out.push(b'\n')?;
    Ok(())
}

// The commands among the items, as they came.
fn entries_of(alloc: Global, items: &[Item]) -> Result<Vec<&Entry>, AllocError>
    ensures { IfOk result (λ entries. map (λ e. e.now) entries.items ≡ entries_of items.now) }
{
    let mut entries = Vec::new(alloc);
    for item in items {
        if let Item::Call(entry) = item {
            entries.push(entry)?;
        }
    }
    Ok(entries)
}

fn sort_by_place(entries: &mut Vec<&Entry>) -> Result<(), AllocError>
    ensures { OnOk result (IsByPlace (map (λ e. e.now) entries.old.items) (map (λ e. e.now) entries.new.items)) }
{
    entries.sort_by_key(|entry| (entry.phase, entry.client, entry.index))?;
    Ok(())
}

fn lines_of(alloc: Global, entries: &[&Entry]) -> Result<Vec<u8>, AllocError>
    ensures { IfOk result (λ text. text.items ≡ flat_map line_of (map (λ e. e.now) entries.now)) }
{
    let mut text = Vec::new(alloc);
    for entry in entries {
        put_line(alloc, &mut text, entry)?;
    }
    Ok(text)
}

/// The text of the history: a line `CLIENT INDEX REPLY` and a line feed for each command, phase by phase, in a
/// phase client by client, and of a client index by index. Marks have no line. Beside the text, memory is
/// taken for a reference to each command and for the digits of one reply.
pub fn text(alloc: Global, history: &History) -> Result<Bytes, NoMemory>
    ensures { IfOk result (IsText history.now.items) }
{
    let mut entries = entries_of(alloc, history.items())?;
    sort_by_place(&mut entries)?;
    let text = lines_of(alloc, &entries)?;
    Ok(Bytes::from_vec(text))
}

/// A law: a history has one text.
pub fn text_law()
    ensures { (items : List Item) (a b : List ℕ) → IsText items a → IsText items b → a ≡ b }
{}
