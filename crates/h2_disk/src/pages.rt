ghost use Rattle.std.specs.Prelude.{◌≡◌, ◌+◌, ◌/◌, ◌%◌, ◌^◌, ◌≤◌, ◌<◌, ℕ, length, vec_len, OnOk, IsSome};
ghost use Rattle.std.specs.Ordering.{nat_cmp};
ghost use Rattle.std.specs.BTreeMap.{get};
ghost use Rattle.h2_num.specs.Places.{Places, places, from_place, Same, SameBelow, Lays};
ghost use Rattle.h2_disk.specs.Pages.{IsTable, page_byte, HasPages, HasPagesBetween, Fills};

use crate::zeros::clear_range;
use h2_num::{NoMemory, put_bytes};
use std::alloc::Global;
use std::collections::BTreeMap;

/// Bytes of a page.
const PAGE_BYTES: u64 = 16384;

/// Bytes by their places below 2^34, kept in pages. A page that isn't kept is zeros.
#[derive(Drop)]
pub struct Pages {
    /// Where the page of each number begins in `bytes`.
    starts: BTreeMap<u64, usize>,
    bytes: Vec<u8>,
    ghost table: { IsTable (get nat_cmp starts) (vec_len bytes) },
}

impl Pages {
    /// Zeros everywhere.
    pub fn new(alloc: Global) -> Pages
        ensures { Same (λ k. 0) (page_byte (get nat_cmp result.starts) result.bytes.items) }
    {
        Pages {
            starts: BTreeMap::new(alloc),
            bytes: Vec::new(alloc),
        }
    }

    /// Fills the buffer with the bytes from the place on.
    pub fn read(&self, at: u64, buf: &mut [u8])
        requires { at + length buf.old ≤ 2 ^ 34 }
        ensures { SameBelow (length buf.new) (from_place (page_byte (get nat_cmp self.now.starts) self.now.bytes.items) at) (places buf.new) }
    {
        let mut done = 0;
        while done < buf.len() {
            let place = at + done as u64;
            let n = piece_len(place, buf.len() - done);
            self.read_piece(place, buf, done, n);
            done += n;
        }
    }

    // Fills n bytes of the buffer, from one on, with those at a place, all of one page.
    fn read_piece(&self, at: u64, buf: &mut [u8], from: usize, n: usize)
        requires within { from + n ≤ length buf.old }
        requires one_page { at % 16384 + n ≤ 16384 }
        ensures { Fills at from n (page_byte (get nat_cmp self.now.starts) self.now.bytes.items) (places buf.old) (places buf.new) }
    {
        let offset = (at % PAGE_BYTES) as usize;
        match self.starts.get(&(at / PAGE_BYTES)).copied() {
            Some(start) => {
                let place = start + offset;
                put_bytes(buf, from, &self.bytes[place..place + n]);
            }
            None => clear_range(buf, from, n),
        }
    }

    /// Keeps the page of each of the n bytes at the place. What is read stays.
    pub fn keep_pages(&mut self, at: u64, n: usize) -> Result<(), NoMemory>
        requires { at + n ≤ 2 ^ 34 }
        ensures ok { OnOk result (HasPages (get nat_cmp self.new.starts) at n) }
        ensures same { Same (page_byte (get nat_cmp self.old.starts) self.old.bytes.items) (page_byte (get nat_cmp self.new.starts) self.new.bytes.items) }
    {
        for page in at / PAGE_BYTES..(at + n as u64).div_ceil(PAGE_BYTES) {
            self.keep_page(page)?;
        }
        Ok(())
    }

    // Keeps a page, and all that are kept. What is read stays.
    fn keep_page(&mut self, page: u64) -> Result<(), NoMemory>
        requires { page < 2 ^ 34 }
        ensures ok { OnOk result (IsSome (get nat_cmp self.new.starts page)) }
        ensures kept { (other : ℕ) → IsSome (get nat_cmp self.old.starts other) → IsSome (get nat_cmp self.new.starts other) }
        ensures same { Same (page_byte (get nat_cmp self.old.starts) self.old.bytes.items) (page_byte (get nat_cmp self.new.starts) self.new.bytes.items) }
    {
        if self.starts.contains_key(&page) {
            return Ok(());
        }
        self.add_page(page)
    }

    // Keeps a page that isn't kept. What is read stays.
    fn add_page(&mut self, page: u64) -> Result<(), NoMemory>
        requires { get nat_cmp self.old.starts page ≡ None }
        ensures ok { OnOk result (IsSome (get nat_cmp self.new.starts page)) }
        ensures kept { (other : ℕ) → IsSome (get nat_cmp self.old.starts other) → IsSome (get nat_cmp self.new.starts other) }
        ensures same { Same (page_byte (get nat_cmp self.old.starts) self.old.bytes.items) (page_byte (get nat_cmp self.new.starts) self.new.bytes.items) }
    {
        let start = self.bytes.len();
        self.bytes.resize(start + PAGE_BYTES as usize, 0)?;
        if self.starts.insert(page, start).is_err() {
            self.bytes.truncate(start);
            return Err(NoMemory);
        }
        Ok(())
    }

    /// Puts the bytes at the place. The page of each is kept.
    pub fn lay(&mut self, at: u64, bytes: &[u8])
        requires within { at + length bytes.now ≤ 2 ^ 34 }
        requires kept { HasPages (get nat_cmp self.old.starts) at (length bytes.now) }
        ensures { Lays at bytes.now (page_byte (get nat_cmp self.old.starts) self.old.bytes.items) (page_byte (get nat_cmp self.new.starts) self.new.bytes.items) }
    {
        let mut done = 0;
        while done < bytes.len() {
            let place = at + done as u64;
            let n = piece_len(place, bytes.len() - done);
            self.lay_piece(place, &bytes[done..done + n]);
            done += n;
        }
    }

    // Puts bytes at a place, all of one page, which is kept.
    fn lay_piece(&mut self, at: u64, bytes: &[u8])
        requires one_page { at % 16384 + length bytes.now ≤ 16384 }
        requires kept { IsSome (get nat_cmp self.old.starts (at / 16384)) }
        ensures starts { self.new.starts ≡ self.old.starts }
        ensures laid { Lays at bytes.now (page_byte (get nat_cmp self.old.starts) self.old.bytes.items) (page_byte (get nat_cmp self.new.starts) self.new.bytes.items) }
    {
        let Some(start) = self.starts.get(&(at / PAGE_BYTES)).copied() else {
            unreachable!()
        };
        let place = start + (at % PAGE_BYTES) as usize;
        put_bytes(&mut self.bytes, place, bytes);
    }
}

// How many of the bytes from a place on lie in its page.
fn piece_len(at: u64, rest: usize) -> usize
    ensures one_page { at % 16384 + result ≤ 16384 }
    ensures within { result ≤ rest }
    ensures some { 0 < rest → 0 < result }
{
    rest.min((PAGE_BYTES - at % PAGE_BYTES) as usize)
}
