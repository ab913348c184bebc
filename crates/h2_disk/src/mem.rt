ghost use Rattle.std.specs.Prelude.{◌≡◌, ◌↔◌, ◌+◌, ◌-◌, ◌^◌, ◌≤◌, IsTrue, IfOk, OnOk, OnErr, IfErr, length, true, false, Contains};
ghost use Rattle.h2_num.specs.Places.{places, from_place, SameBelow, Lays};
ghost use Rattle.h2_num.specs.Causes.{one_more};
ghost use Rattle.h2_disk.specs.Trace.{Opened};
ghost use Rattle.h2_disk.specs.RecordLaws.{record_left};
ghost use Rattle.h2_disk.specs.Disk.{Keeps, Writes, Syncs, CountsWants};
ghost use Rattle.h2_disk.specs.Faults.{IsCounted};
ghost use Rattle.h2_disk.specs.Mem.{mem_image, mem_trace, mem_moment, mem_faults, mem_wants, mem_reads, FailsNextRead, FailsNextCall, FailsExactlyIf, KeepsPlan, IsFresh};
ghost use Rattle.h2_disk.specs.declared.disk.DiskFault.TheVariants.{Failed};

use crate::disk::count_want;
use crate::recording::Recording;
use crate::{Disk, DiskFault};
use h2_num::NoMemory;
use std::alloc::Global;

mod cuts;

/// A disk in memory that fails as planned. It takes 16 KiB for each page that was written, and room for
/// a copy of each write.
///
/// A write or a sync fails at the planned moments and from moment 2^64 - 2 on, a read at the planned
/// numbers. A write that failed leaves the old bytes and counts as no write. The count of faults rises
/// at each failure and at nothing else, the count of wants at each write or sync that was refused for want
/// of memory.
#[derive(Drop)]
pub struct MemDisk {
    recording: Recording,
    fail_moments: Vec<u64>,
    fail_reads: Vec<u64>,
    reads: u64,
    faults: u64,
    wants: u64,
}

impl MemDisk {
    /// An empty disk at moment 0. The write or sync that begins at one of the moments fails, and so does
    /// the read whose number, from 0, is one of `fail_reads`.
    pub fn new(
        alloc: Global,
        fail_moments: Vec<u64>,
        fail_reads: Vec<u64>,
    ) -> Result<MemDisk, NoMemory>
        ensures { IfOk result (IsFresh (λ k. 0) fail_moments.items fail_reads.items) }
    {
        Ok(MemDisk::over(Recording::new(alloc), fail_moments, fail_reads))
    }

    /// Changes the image at moment 0: puts the bytes at the place, as if they had stood there at first.
    /// For want of memory it is refused, and the disk is as before.
    pub fn poke(&mut self, at: u64, bytes: &[u8]) -> Result<(), NoMemory>
        requires within { at + length bytes.now ≤ 2 ^ 34 }
        requires start { mem_moment self.old ≡ 0 }
        ensures laid { OnOk result (Lays at bytes.now (mem_image self.old) (mem_image self.new)) }
        ensures trace { OnOk result (mem_trace self.new ≡ Opened (mem_image self.new)) }
        ensures refused { OnErr result (Keeps (mem_image self.old) (mem_image self.new) (mem_trace self.old) (mem_trace self.new)) }
        ensures moment { mem_moment self.new ≡ 0 }
        ensures faults { mem_faults self.new ≡ mem_faults self.old }
        ensures wants { mem_wants self.new ≡ mem_wants self.old }
        ensures reads { mem_reads self.new ≡ mem_reads self.old }
        ensures plan { KeepsPlan self.old self.new }
    {
        self.recording.lay(at, bytes)
    }

    // A disk with this image, these failures, and no fault and no want of memory so far.
    fn over(recording: Recording, fail_moments: Vec<u64>, fail_reads: Vec<u64>) -> MemDisk
        ensures { result ≡ record { recording = recording; fail_moments = fail_moments; fail_reads = fail_reads; reads = 0; faults = 0; wants = 0 } }
    {
        MemDisk {
            recording,
            fail_moments,
            fail_reads,
            reads: 0,
            faults: 0,
            wants: 0,
        }
    }

    // Counts a read, and says whether it is to fail.
    fn fails_read(&mut self) -> bool
        ensures planned { IsTrue result ↔ FailsNextRead self.old }
        ensures counted { self.new ≡ record self.old { reads = one_more self.old.reads } }
    {
        let fails = is_listed(&self.fail_reads, self.reads);
        self.reads = self.reads.saturating_add(1);
        fails
    }

    // Whether the next write or sync is to fail.
    fn fails_call(&self) -> bool
        ensures { IsTrue result ↔ FailsNextCall self.now }
    {
        self.recording.has_ended()
            || is_listed(
                &self.fail_moments,
                self.recording.moment().saturating_add(1),
            )
    }

    // Counts a fault.
    fn count_fault(&mut self) -> DiskFault
        ensures fault { result ≡ Failed }
        ensures later { self.old.faults ≤ self.new.faults }
        ensures counted { self.new ≡ record self.old { faults = one_more self.old.faults } }
    {
        self.faults = self.faults.saturating_add(1);
        DiskFault::Failed
    }
}

impl Disk for MemDisk {
    ghost tells = { true };

    ghost image = { mem_image };

    ghost trace = { mem_trace };

    ghost faults = { mem_faults };

    ghost wants = { mem_wants };

    ghost moment = { mem_moment };

    ghost moment_fits = { λ disk. disk.recording.fits };

    ghost trace_past = { λ disk. disk.recording.past };

    ghost left_now = { λ disk tells. record_left disk.recording.entries.items disk.recording.moment disk.recording.past };

    /// Fills the buffer with the image's bytes from the place on. It fails exactly where its number is
    /// planned, and takes no memory.
    fn read(&mut self, at: u64, buf: &mut [u8]) -> Result<(), DiskFault>
        requires { at + length buf.old ≤ 2 ^ 34 }
        ensures bytes { OnOk result (SameBelow (length buf.new) (from_place (mem_image self.old) at) (places buf.new)) }
        ensures keeps { Keeps (mem_image self.old) (mem_image self.new) (mem_trace self.old) (mem_trace self.new) }
        ensures time { mem_moment self.new ≡ mem_moment self.old }
        ensures fails { FailsExactlyIf (FailsNextRead self.old) result }
        ensures memory { IfErr result (λ fault. fault ≡ Failed) }
        ensures wants { mem_wants self.new ≡ mem_wants self.old }
        ensures later { mem_faults self.old ≤ mem_faults self.new }
        ensures counted { IsCounted (mem_faults self.old) (mem_faults self.new) result }
        ensures number { mem_reads self.new ≡ one_more (mem_reads self.old) }
        ensures plan { KeepsPlan self.old self.new }
    {
        if self.fails_read() {
            return Err(self.count_fault());
        }
        self.recording.read(at, buf);
        Ok(())
    }

    /// Puts the bytes at the place. It fails exactly where its moment is planned or the last, and may be
    /// refused for want of memory. Either way the old bytes stay.
    fn write(&mut self, at: u64, bytes: &[u8]) -> Result<(), DiskFault>
        requires { at + length bytes.now ≤ 2 ^ 34 }
        ensures wrote { OnOk result (Writes (mem_moment self.new) at bytes.now (mem_image self.old) (mem_image self.new) (mem_trace self.old) (mem_trace self.new)) }
        ensures failed { OnErr result (Keeps (mem_image self.old) (mem_image self.new) (mem_trace self.old) (mem_trace self.new)) }
        ensures time { mem_moment self.new ≡ one_more (mem_moment self.old) }
        ensures fails { FailsExactlyIf (FailsNextCall self.old) result }
        ensures later { mem_faults self.old ≤ mem_faults self.new }
        ensures counted { IsCounted (mem_faults self.old) (mem_faults self.new) result }
        ensures memory { CountsWants (mem_wants self.old) (mem_wants self.new) result }
        ensures reads { mem_reads self.new ≡ mem_reads self.old }
        ensures plan { KeepsPlan self.old self.new }
    {
        if self.fails_call() {
            self.recording.fail();
            return Err(self.count_fault());
        }
        let Ok(()) = self.recording.write(at, bytes) else {
            return Err(count_want(&mut self.wants));
        };
        Ok(())
    }

    /// Makes the image durable. It fails exactly where its moment is planned or the last, and may be
    /// refused for want of memory.
    fn sync(&mut self) -> Result<(), DiskFault>
        ensures synced { OnOk result (Syncs (mem_moment self.new) (mem_image self.old) (mem_image self.new) (mem_trace self.old) (mem_trace self.new)) }
        ensures failed { OnErr result (Keeps (mem_image self.old) (mem_image self.new) (mem_trace self.old) (mem_trace self.new)) }
        ensures time { OnOk result (mem_moment self.new ≡ mem_moment self.old + 2) }
        ensures time_failed { OnErr result (mem_moment self.new ≡ one_more (mem_moment self.old)) }
        ensures fails { FailsExactlyIf (FailsNextCall self.old) result }
        ensures later { mem_faults self.old ≤ mem_faults self.new }
        ensures counted { IsCounted (mem_faults self.old) (mem_faults self.new) result }
        ensures memory { CountsWants (mem_wants self.old) (mem_wants self.new) result }
        ensures reads { mem_reads self.new ≡ mem_reads self.old }
        ensures plan { KeepsPlan self.old self.new }
    {
        if self.fails_call() {
            self.recording.fail();
            return Err(self.count_fault());
        }
        let Ok(()) = self.recording.sync() else {
            return Err(count_want(&mut self.wants));
        };
        Ok(())
    }

    fn moment(&self) -> u64 {
        self.recording.moment()
    }
}

// Whether the number is one of the list.
fn is_listed(list: &[u64], number: u64) -> bool
    ensures { IsTrue result ↔ Contains list.now number }
{
    list.contains(&number)
}
