ghost use Rattle.std.specs.Prelude.{◌≡◌, ◌<◌, ◌≤◌, ◌+◌, ◌*◌, ◌^◌, ℕ, length, IfOk, OnOk, OnErr, IsSome};
ghost use Rattle.std.specs.FinMap as map;
ghost use Rattle.h2_contents.specs.Payload.{payload_bytes};
ghost use Rattle.h2_contents.specs.Pages.{IsPageAfter, SameBytes, KeepsPages, IsWrittenFrom, IsPageCut, IsCutAt};

use crate::page::{PAGE_BYTES, Page};
use crate::pages::Pages;
use crate::payload::Payload;
use h2_num::NoMemory;
use std::alloc::Global;

/// A page after the bytes of a write are put at `off` of the file.
fn page_after(
    pages: &Pages,
    alloc: Global,
    number: u64,
    off: u64,
    payload: &Payload,
) -> Result<Page, NoMemory>
    requires { number ≤ 2 ^ 26 }
    ensures { IfOk result (IsPageAfter number off (payload_bytes payload.now) (map.get pages.now number)) }
{
    match pages.get(number) {
        Some(page) => page.written(alloc, number, off, payload),
        None => Page::filled(0).written(alloc, number, off, payload),
    }
}

/// Keeps a page, and all that are kept. No byte changes, also for want of memory.
fn keep_page(pages: &mut Pages, number: u64) -> Result<(), NoMemory>
    ensures ok { OnOk result (IsSome (map.get pages.new number)) }
    ensures same { SameBytes pages.old pages.new }
    ensures kept { KeepsPages pages.old pages.new }
{
    match pages.get(number) {
        Some(_) => Ok(()),
        None => pages.insert(number, Page::filled(0)),
    }
}

/// Puts the bytes of a write, which stand at `off`, into the pages from a number on. Want of memory changes
/// no byte.
pub fn write_from(
    pages: &mut Pages,
    alloc: Global,
    number: u64,
    last: u64,
    off: u64,
    payload: &Payload,
) -> Result<(), NoMemory>
    requires small { last ≤ 2 ^ 26 }
    requires whole { off + length (payload_bytes payload.now) ≤ last * 16384 }
    ensures ok { OnOk result (IsWrittenFrom number off (payload_bytes payload.now) pages.old pages.new) }
    ensures err { OnErr result (SameBytes pages.old pages.new) }
    ensures kept { KeepsPages pages.old pages.new }
{
    if number >= last {
        return Ok(());
    }
    let page = page_after(pages, alloc, number, off, payload)?;
    keep_page(pages, number)?;
    write_from(pages, alloc, number + 1, last, off, payload)?;
    pages.replace(number, page);
    Ok(())
}

/// A page that is kept, with zeros from a place on.
fn page_cut(
    pages: &Pages,
    alloc: Global,
    number: u64,
    size: usize,
) -> Result<Option<Page>, NoMemory>
    ensures { IfOk result (λ cut. IsPageCut size (map.get pages.now number) cut) }
{
    match pages.get(number) {
        Some(page) => Ok(Some(page.cut(alloc, size)?)),
        None => Ok(None),
    }
}

/// Makes all bytes from a size on zeros. Want of memory changes nothing.
pub fn cut_at(pages: &mut Pages, alloc: Global, size: u64) -> Result<(), NoMemory>
    requires { size ≤ 2 ^ 40 }
    ensures ok { OnOk result (IsCutAt size pages.old pages.new) }
    ensures err { OnErr result (pages.new ≡ pages.old) }
{
    let number = size / PAGE_BYTES;
    let cut = page_cut(pages, alloc, number, (size % PAGE_BYTES) as usize)?;
    pages.keep_below(number + 1)?;
    let Some(page) = cut else {
        return Ok(());
    };
    pages.replace(number, page);
    Ok(())
}
