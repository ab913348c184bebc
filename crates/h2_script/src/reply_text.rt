ghost use Rattle.std.specs.Prelude.{◌≡◌, ◌++◌, IfOk, OnOk};
ghost use Rattle.std.specs.String.{string_bytes};
ghost use Rattle.h2_script.specs.ReplyTexts.{word_of, numbers_of, spaced, digits_of, items_of, reply_text};

use h2_command::Reply;
use h2_num::Name;
use std::alloc::{AllocError, Global};

fn word_of(reply: &Reply) -> &'static str
    ensures { result.now ≡ word_of reply.now }
{
    match reply {
        Reply::Done => "ok",
        Reply::List(_) => "list",
        Reply::Dir { .. } => "dir",
        Reply::File { .. } => "file",
        Reply::Handle(_) => "handle",
        Reply::Got(_) => "data",
        Reply::Wrote(_) => "wrote",
        Reply::Bulk { .. } => "bulk",
        Reply::Pfs(_) => "pfs",
        Reply::NoEntry => "no-entry",
        Reply::Exists => "exists",
        Reply::NotDir => "not-dir",
        Reply::IsDir => "is-dir",
        Reply::NotEmpty => "not-empty",
        Reply::Full => "full",
        Reply::LinksFull => "links-full",
        Reply::Loop => "loop",
        Reply::NoPfs => "no-pfs",
        Reply::InUse(_) => "in-use",
        Reply::NoHandle => "no-handle",
        Reply::HandlesFull => "handles-full",
        Reply::Long => "long",
        Reply::Running(_) => "running",
        Reply::NoSpace { .. } => "no-space",
        Reply::Io { .. } => "io",
        Reply::BadBlock { .. } => "bad-block",
        Reply::NoMemory => "no-memory",
    }
}

// The numbers, with the words before them.
fn numbers_of(alloc: Global, reply: &Reply) -> Result<String, AllocError>
    ensures { IfOk result (λ text. string_bytes text ≡ numbers_of reply.now) }
{
    match reply {
        Reply::List(names) => format!(in alloc; " {}", names.items().len()),
        Reply::Dir { number, entries } => format!(in alloc; " inode {number} entries {entries}"),
        Reply::File {
            number,
            links,
            size,
        } => format!(in alloc; " inode {number} links {links} size {size}"),
        Reply::Handle(number) => format!(in alloc; " {number}"),
        Reply::Got(bytes) => format!(in alloc; " {}", bytes.as_slice().len()),
        Reply::Wrote(count) => format!(in alloc; " {count}"),
        Reply::Bulk {
            seen,
            staged,
            freed,
        } => format!(in alloc; " seen {seen} staged {staged} freed {freed}"),
        Reply::Pfs(names) => format!(in alloc; " {}", names.items().len()),
        Reply::InUse(handles) => format!(in alloc; " {handles}"),
        Reply::Running(client) => format!(in alloc; " {client}"),
        Reply::NoSpace { need, free } => format!(in alloc; " {need} {free}"),
        Reply::BadBlock { place, .. } => format!(in alloc; " {place}"),
        _ => Ok(String::new(alloc)),
    }
}

// Each name after a space.
fn put_names(out: &mut Vec<u8>, names: &[Name]) -> Result<(), AllocError>
    ensures { OnOk result (out.new.items ≡ out.old.items ++ spaced names.now) }
{
    for name in names {
        out.push(b' ')?;
        out.extend_from_slice(name.as_slice())?;
    }
    Ok(())
}

// The bytes as digits after a space, if there are any.
fn put_digits(alloc: Global, out: &mut Vec<u8>, bytes: &[u8]) -> Result<(), AllocError>
    ensures { OnOk result (out.new.items ≡ out.old.items ++ digits_of bytes.now) }
{
    if bytes.is_empty() {
        return Ok(());
    }
    let digits = hex::encode(alloc, bytes)?;
    out.push(b' ')?;
    out.extend_from_slice(digits.as_bytes())
}

fn put_items(alloc: Global, out: &mut Vec<u8>, reply: &Reply) -> Result<(), AllocError>
    ensures { OnOk result (out.new.items ≡ out.old.items ++ items_of reply.now) }
{
    match reply {
        Reply::List(names) => put_names(out, names.items()),
        Reply::Pfs(names) => put_names(out, names.items()),
        Reply::Got(bytes) => put_digits(alloc, out, bytes.as_slice()),
        _ => Ok(()),
    }
}

/// Appends the text of the reply. Where memory is wanting, a front of it may have been appended.
pub fn put_reply(alloc: Global, out: &mut Vec<u8>, reply: &Reply) -> Result<(), AllocError>
    ensures { OnOk result (out.new.items ≡ out.old.items ++ reply_text reply.now) }
{
    out.extend_from_slice(word_of(reply).as_bytes())?;
    let numbers = numbers_of(alloc, reply)?;
    out.extend_from_slice(numbers.as_bytes())?;
    put_items(alloc, out, reply)
}
