ghost use Rattle.std.specs.Prelude.{◌≡◌, ◌<◌, ◌≤◌, ◌+◌, ◌*◌, ◌^◌, ℕ, length, slice_index, replicate, cond, nat_lt, IfOk, Some, None};
ghost use Rattle.h2_contents.specs.Payload.{payload_bytes};
ghost use Rattle.h2_contents.specs.Windows.{laid, LaysInto};
ghost use Rattle.h2_contents.specs.Pages.{IsPageAfter};

use crate::payload::Payload;
use h2_num::{Bytes, NoMemory};
use std::alloc::Global;
use std::marker::Model;

/// Bytes of a page.
pub(crate) const PAGE_BYTES: u64 = 16384;

/// The bytes of one page of a file.
#[derive(Drop)]
pub struct Page {
    bytes: Payload,
}

impl Model for Page {
    ghost use Rattle.std.specs.Prelude.{List, ℕ, ◌≡◌, length};
    ghost use Rattle.h2_contents.specs.Payload.{payload_bytes};

    ghost Value = { List ℕ };

    ghost view = { λ p. payload_bytes p.bytes };

    ghost invariant = { λ p. length (payload_bytes p.bytes) ≡ 16384 };
}

/// Zeros from a place of a window on.
fn clear_from(window: &mut [u8], from: usize)
    ensures { (k : ℕ) → k < length window.new → slice_index window.new k ≡ cond (nat_lt k from) (slice_index window.old k) 0 }
{
    for k in from..window.len() {
        window[k] = 0;
    }
}

impl Page {
    /// One byte at each place.
    pub fn filled(byte: u8) -> Page
        ensures { result ≡ replicate 16384 byte }
    {
        Page {
            bytes: Payload::Repeat {
                count: PAGE_BYTES as u32,
                byte,
            },
        }
    }

    /// Lays the page, which begins at `off` of a file, into a window on it that begins at `start`.
    pub fn lay(&self, off: u64, window: &mut [u8], start: u64)
        requires { start + length window.old ≤ 2 ^ 41 }
        ensures laid { LaysInto off self.now start window.old window.new }
        ensures whole { length self.now ≡ 16384 }
    {
        self.bytes.lay(off, window, start);
    }

    /// Draws the page, which has a number, with the bytes of a write at `off` over it.
    fn draw(&self, window: &mut [u8], number: u64, off: u64, payload: &Payload)
        requires long { length window.old ≡ 16384 }
        requires small { number ≤ 2 ^ 26 }
        ensures { IsPageAfter number off (payload_bytes payload.now) (Some self.now) window.new }
    {
        self.lay(0, window, 0);
        payload.lay(off, window, number * PAGE_BYTES);
    }

    /// The page with a number, after the bytes of a write are put at `off` of the file.
    pub fn written(
        &self,
        alloc: Global,
        number: u64,
        off: u64,
        payload: &Payload,
    ) -> Result<Page, NoMemory>
        requires { number ≤ 2 ^ 26 }
        ensures { IfOk result (IsPageAfter number off (payload_bytes payload.now) (Some self.now)) }
    {
        if let Some(byte) = payload.byte_of_page(off, number * PAGE_BYTES) {
            return Ok(Page::filled(byte));
        }
        let mut window = vec![in alloc; 0; 16384]?;
        self.draw(&mut window, number, off, payload);
        Ok(Page {
            bytes: Payload::Plain(Bytes::from_vec(window)),
        })
    }

    /// Draws the first bytes of the page, and zeros behind.
    fn draw_first(&self, window: &mut [u8], size: usize)
        requires { length window.old ≡ 16384 }
        ensures { (k : ℕ) → k < 16384 → slice_index window.new k ≡ cond (nat_lt k size) (slice_index self.now k) 0 }
    {
        self.lay(0, window, 0);
        clear_from(window, size);
    }

    /// The first bytes of the page, and zeros behind.
    pub fn cut(&self, alloc: Global, size: usize) -> Result<Page, NoMemory>
        ensures { IfOk result (λ page. (k : ℕ) → k < 16384 → slice_index page k ≡ cond (nat_lt k size) (slice_index self.now k) 0) }
    {
        let mut window = vec![in alloc; 0; 16384]?;
        self.draw_first(&mut window, size);
        Ok(Page {
            bytes: Payload::Plain(Bytes::from_vec(window)),
        })
    }

    /// An equal value.
    pub fn copy(&self, alloc: Global) -> Result<Page, NoMemory>
        ensures { IfOk result (λ copy. copy ≡ self.now) }
    {
        let bytes = self.bytes.copy(alloc)?;
        Ok(Page { bytes })
    }
}
