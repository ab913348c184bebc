ghost use Rattle.std.specs.Prelude.{◌≡◌, ◌+◌, ◌^◌, ◌≤◌, ◌<◌, [], ℕ, length, slice_index, IfOk, OnOk, OnErr};
ghost use Rattle.h2_contents.specs.Bytes.{read_at, written_at, cut_to};
ghost use Rattle.h2_contents.specs.Payload.{payload_bytes};
ghost use Rattle.h2_contents.specs.Pages.{byte_in, IsShownTo};

use crate::page::PAGE_BYTES;
use crate::pages::Pages;
use crate::payload::Payload;
use crate::writing::{cut_at, write_from};
use h2_num::{Bytes, NoMemory};
use std::alloc::Global;
use std::marker::Model;

/// The contents of a file: a list of at most 2^40 bytes. Only pages that were written are kept, so a hole
/// takes no memory.
#[derive(Drop)]
pub struct Contents {
    pages: Pages,
    size: u64,
}

impl Model for Contents {
    ghost use Rattle.std.specs.Prelude.{List, ℕ};

    ghost Value = { List ℕ };

    ghost use Rattle.h2_contents.specs.Pages.{byte_in, first_bytes, IsKept};

    ghost view = { λ c. first_bytes (byte_in c.pages) c.size };

    ghost invariant = { λ c. IsKept c.pages c.size };
}

/// Shows one page in a window that begins at a place and has the pages before it.
fn show_page(pages: &Pages, number: u64, window: &mut [u8], start: u64)
    requires small { number ≤ 2 ^ 26 }
    requires within { start + length window.old ≤ 2 ^ 41 }
    requires before { IsShownTo pages.now number start window.old }
    ensures { IsShownTo pages.now (number + 1) start window.new }
{
    if let Some(page) = pages.get(number) {
        page.lay(number * PAGE_BYTES, window, start);
    }
}

/// Shows all pages in a window of zeros that begins at a place.
fn show_pages(pages: &Pages, window: &mut [u8], start: u64)
    requires within { start + length window.old ≤ 2 ^ 40 }
    requires zeros { (k : ℕ) → k < length window.old → slice_index window.old k ≡ 0 }
    ensures { (k : ℕ) → k < length window.new → slice_index window.new k ≡ byte_in pages.now (start + k) }
{
    let end = start + window.len() as u64;
    for number in start / PAGE_BYTES..end.div_ceil(PAGE_BYTES) {
        show_page(pages, number, window, start);
    }
}

impl Contents {
    /// No byte. It takes no memory.
    pub fn new(alloc: Global) -> Contents
        ensures { result ≡ [] }
    {
        Contents {
            pages: Pages::new(alloc),
            size: 0,
        }
    }

    /// The number of bytes.
    pub fn size(&self) -> u64
        ensures size { result ≡ length self.now }
        ensures small { result ≤ 2 ^ 40 }
    {
        self.size
    }

    /// Puts at most 1,048,576 bytes at a place, over zeros where nothing was. No bytes and want of memory
    /// change nothing.
    pub fn write(&mut self, alloc: Global, off: u64, payload: &Payload) -> Result<(), NoMemory>
        requires few { length (payload_bytes payload.now) ≤ 1048576 }
        requires within { off + length (payload_bytes payload.now) ≤ 2 ^ 40 }
        ensures ok { OnOk result (self.new ≡ written_at self.old off (payload_bytes payload.now)) }
        ensures err { OnErr result (self.new ≡ self.old) }
    {
        let len = payload.len() as u64;
        if len == 0 {
            return Ok(());
        }
        let end = off + len;
        let first = off / PAGE_BYTES;
        write_from(
            &mut self.pages,
            alloc,
            first,
            end.div_ceil(PAGE_BYTES),
            off,
            payload,
        )?;
        self.size = self.size.max(end);
        Ok(())
    }

    /// Gives the file this many bytes, zeros where there were none. Want of memory changes nothing.
    pub fn cut(&mut self, alloc: Global, size: u64) -> Result<(), NoMemory>
        requires { size ≤ 2 ^ 40 }
        ensures ok { OnOk result (self.new ≡ cut_to self.old size) }
        ensures err { OnErr result (self.new ≡ self.old) }
    {
        cut_at(&mut self.pages, alloc, size)?;
        self.size = size;
        Ok(())
    }

    /// At most this many bytes from a place on. The error is want of memory.
    pub fn read(&self, alloc: Global, off: u64, len: u32) -> Result<Bytes, NoMemory>
        ensures { IfOk result (λ bytes. bytes ≡ read_at self.now off len) }
    {
        if off >= self.size {
            return Ok(Bytes::from_vec(Vec::new(alloc)));
        }
        let count = (self.size - off).min(len as u64) as usize;
        let mut window = vec![in alloc; 0; count]?;
        show_pages(&self.pages, &mut window, off);
        Ok(Bytes::from_vec(window))
    }

    /// An equal value. The error is want of memory.
    pub fn copy(&self, alloc: Global) -> Result<Contents, NoMemory>
        ensures { IfOk result (λ copy. copy ≡ self.now) }
    {
        let pages = self.pages.copy(alloc)?;
        Ok(Contents {
            pages,
            size: self.size,
        })
    }
}
