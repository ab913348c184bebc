ghost use Rattle.std.specs.Prelude.{◌≡◌, ◌≤◌, length, take, IfOk, OnOk};
ghost use Rattle.h2_disk.specs.Trace.{up_to, durable};
ghost use Rattle.h2_disk.specs.Cut.{torn, image_cut};
ghost use Rattle.h2_disk.specs.Record.{laid_by, image_of, trace_of, IsOnDisk, StartsWith};

use super::Recording;
use crate::choice::Choice;
use crate::entry::Entry;
use h2_num::NoMemory;

impl Recording {
    /// A disk at moment 0 with what a cut at the moment leaves by the choice.
    pub fn cut(&self, m: u64, choice: Choice) -> Result<Recording, NoMemory>
        ensures { IfOk result (λ disk. StartsWith (image_cut choice (up_to m (trace_of self.now.entries.items))) disk.entries.items disk.moment) }
    {
        let count = self.count_up_to(m);
        match choice {
            Choice::Old => self.copy_first(self.count_synced(count)),
            Choice::New => self.copy_first(count),
            Choice::Torn(kept) => self.copy_torn(count, kept),
        }
    }

    /// A disk at moment 0 with the same image.
    pub fn copy(&self) -> Result<Recording, NoMemory>
        ensures { IfOk result (λ disk. StartsWith (image_of self.now.entries.items) disk.entries.items disk.moment) }
    {
        self.copy_first(self.entries.len())
    }

    // How many entries a cut at the moment finds.
    fn count_up_to(&self, m: u64) -> usize
        ensures within { result ≤ length self.now.entries.items }
        ensures found { up_to m (trace_of self.now.entries.items) ≡ trace_of (take result self.now.entries.items) }
    {
        let mut count = self.entries.len();
        while count > 0 {
            if self.entries[count - 1].moment() <= m {
                return count;
            }
            count -= 1;
        }
        0
    }

    // How many of the first entries are no writes since the last sync among them.
    fn count_synced(&self, count: usize) -> usize
        requires { count ≤ length self.now.entries.items }
        ensures within { result ≤ length self.now.entries.items }
        ensures durable { durable (trace_of (take count self.now.entries.items)) ≡ image_of (take result self.now.entries.items) }
    {
        let mut synced = count;
        while synced > 0 {
            if !self.entries[synced - 1].is_write() {
                return synced;
            }
            synced -= 1;
        }
        0
    }

    // A disk at moment 0 with the image after the first entries.
    fn copy_first(&self, count: usize) -> Result<Recording, NoMemory>
        requires { count ≤ length self.now.entries.items }
        ensures { IfOk result (λ disk. StartsWith (image_of (take count self.now.entries.items)) disk.entries.items disk.moment) }
    {
        let mut copy = Recording::new(self.alloc);
        for entry in &self.entries[..count] {
            copy.lay_entry(entry)?;
        }
        Ok(copy)
    }

    // Lays what the entry wrote, if it did, over the disk at moment 0.
    fn lay_entry(&mut self, entry: &Entry) -> Result<(), NoMemory>
        requires on_disk { IsOnDisk entry.now }
        requires start { StartsWith (image_of self.old.entries.items) self.old.entries.items self.old.moment }
        ensures { OnOk result (StartsWith (laid_by entry.now (image_of self.old.entries.items)) self.new.entries.items self.new.moment) }
    {
        match entry {
            Entry::Laid { at, bytes } => self.lay(*at, bytes.as_slice()),
            Entry::Write { at, bytes, .. } => self.lay(*at, bytes.as_slice()),
            Entry::Sync { .. } => Ok(()),
        }
    }

    // A disk at moment 0 with the image after the first entries, of the last of which, if it is a write,
    // only the first bytes are kept.
    fn copy_torn(&self, count: usize, kept: u32) -> Result<Recording, NoMemory>
        requires { count ≤ length self.now.entries.items }
        ensures { IfOk result (λ disk. StartsWith (torn kept (trace_of (take count self.now.entries.items))) disk.entries.items disk.moment) }
    {
        if count == 0 {
            return self.copy_first(0);
        }
        let Entry::Write { at, bytes, .. } = &self.entries[count - 1] else {
            return self.copy_first(count);
        };
        let bytes = bytes.as_slice();
        let mut copy = self.copy_first(count - 1)?;
        copy.lay(*at, first_bytes(bytes, kept))?;
        Ok(copy)
    }
}

// The first bytes, or all where there are fewer.
fn first_bytes(bytes: &[u8], count: u32) -> &[u8]
    ensures { result.now ≡ take count bytes.now }
{
    bytes.split_at(bytes.len().min(count as usize)).0
}
