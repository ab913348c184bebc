ghost use Rattle.std.specs.Prelude.{◌≡◌, ◌+◌, ◌-◌, ◌^◌, ◌≤◌, ◌<◌, ◌↔◌, ◌∷◌, [], ◌++◌, length, IsTrue, OnOk, OnErr, IsErr, All};
ghost use Rattle.std.specs.Ordering.{nat_cmp};
ghost use Rattle.std.specs.BTreeMap.{get};
ghost use Rattle.h2_num.specs.Places.{places, from_place, Same, SameBelow};
ghost use Rattle.h2_num.specs.Causes.{one_more};
ghost use Rattle.h2_disk.specs.Trace.{latest};
ghost use Rattle.h2_disk.specs.Disk.{Writes, Syncs};
ghost use Rattle.h2_disk.specs.Pages.{page_byte, HasPages};
ghost use Rattle.h2_disk.specs.Record.{image_of, trace_of, IsOnDisk};

mod cuts;

use crate::entry::Entry;
use crate::pages::Pages;
use h2_num::{Bytes, NoMemory};
use std::alloc::Global;

/// A moment at which no write and no sync can begin any more, and each later one.
const END: u64 = u64::MAX - 1;

/// A disk in memory that never fails: its pages, the record of its writes and syncs, and the moment.
#[derive(Drop)]
pub struct Recording {
    alloc: Global,
    pages: Pages,
    entries: Vec<Entry>,
    moment: u64,
    ghost fits: { moment < 2 ^ 64 },
    ghost on_disk: { All IsOnDisk entries.items },
    ghost past: { latest (trace_of entries.items) ≤ moment },
    ghost reads: { Same (image_of entries.items) (page_byte (get nat_cmp pages.starts) pages.bytes.items) },
}

impl Recording {
    /// An empty disk at moment 0.
    pub fn new(alloc: Global) -> Recording
        ensures empty { result.entries.items ≡ [] }
        ensures moment { result.moment ≡ 0 }
    {
        Recording {
            alloc,
            pages: Pages::new(alloc),
            entries: Vec::new(alloc),
            moment: 0,
        }
    }

    /// The allocator.
    pub fn alloc(&self) -> Global
        ensures { result ≡ self.now.alloc }
    {
        self.alloc
    }

    /// The moment.
    pub fn moment(&self) -> u64
        ensures { result ≡ self.now.moment }
    {
        self.moment
    }

    /// Whether no write and no sync can begin any more.
    pub fn has_ended(&self) -> bool
        ensures { IsTrue result ↔ (2 ^ 64 - 2 ≤ self.now.moment) }
    {
        self.moment >= END
    }

    /// Fills the buffer with the image's bytes from the place on.
    pub fn read(&self, at: u64, buf: &mut [u8])
        requires { at + length buf.old ≤ 2 ^ 34 }
        ensures { SameBelow (length buf.new) (from_place (image_of self.now.entries.items) at) (places buf.new) }
    {
        self.pages.read(at, buf);
    }

    /// A write or a sync begins, and fails.
    pub fn fail(&mut self)
        ensures time { self.new.moment ≡ one_more self.old.moment }
        ensures same { self.new.entries.items ≡ self.old.entries.items }
    {
        self.moment = self.moment.saturating_add(1);
    }

    /// Writes the bytes at the place, or changes the moment alone.
    pub fn write(&mut self, at: u64, bytes: &[u8]) -> Result<(), NoMemory>
        requires { at + length bytes.now ≤ 2 ^ 34 }
        ensures wrote { OnOk result (Writes self.new.moment at bytes.now (image_of self.old.entries.items) (image_of self.new.entries.items) (trace_of self.old.entries.items) (trace_of self.new.entries.items)) }
        ensures failed { OnErr result (self.new.entries.items ≡ self.old.entries.items) }
        ensures time { self.new.moment ≡ one_more self.old.moment }
        ensures end { 2 ^ 64 - 2 ≤ self.old.moment → IsErr result }
    {
        let ended = self.has_ended();
        self.fail();
        if ended {
            return Err(NoMemory);
        }
        let began = self.moment;
        let copy = Bytes::from_slice(self.alloc, bytes)?;
        self.pages.keep_pages(at, bytes.len())?;
        self.entries.push(Entry::Write {
            began,
            at,
            bytes: copy,
        })?;
        self.pages.lay(at, bytes);
        Ok(())
    }

    /// Notes that the bytes stood at the place at moment 0, or changes nothing. The writes and syncs
    /// before are no longer told apart from what stood there.
    pub fn lay(&mut self, at: u64, bytes: &[u8]) -> Result<(), NoMemory>
        requires { at + length bytes.now ≤ 2 ^ 34 }
        ensures laid { OnOk result (self.new.entries.items ≡ self.old.entries.items ++ Entry.Laid at bytes.now ∷ []) }
        ensures failed { OnErr result (self.new.entries.items ≡ self.old.entries.items) }
        ensures time { self.new.moment ≡ self.old.moment }
    {
        let copy = Bytes::from_slice(self.alloc, bytes)?;
        self.pages.keep_pages(at, bytes.len())?;
        self.entries.push(Entry::Laid { at, bytes: copy })?;
        self.pages.lay(at, bytes);
        Ok(())
    }

    /// Notes a sync, or changes the moment alone.
    pub fn sync(&mut self) -> Result<(), NoMemory>
        ensures synced { OnOk result (Syncs self.new.moment (image_of self.old.entries.items) (image_of self.new.entries.items) (trace_of self.old.entries.items) (trace_of self.new.entries.items)) }
        ensures failed { OnErr result (self.new.entries.items ≡ self.old.entries.items) }
        ensures time { OnOk result (self.new.moment ≡ self.old.moment + 2) }
        ensures time_failed { OnErr result (self.new.moment ≡ one_more self.old.moment) }
        ensures end { 2 ^ 64 - 2 ≤ self.old.moment → IsErr result }
    {
        let ended = self.has_ended();
        self.fail();
        if ended {
            return Err(NoMemory);
        }
        let done = self.moment + 1;
        self.entries.push(Entry::Sync { done })?;
        self.moment = done;
        Ok(())
    }
}
