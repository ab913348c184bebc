ghost use Rattle.std.specs.Prelude.{◌≡◌, ◌+◌, ◌-◌, ◌^◌, ◌≤◌, IsOk, IfOk, IsErr, OnOk, OnErr, IsTrue, IfErr, length, true, false};
ghost use Rattle.h2_num.specs.Places.{places, from_place, SameBelow};
ghost use Rattle.h2_num.specs.Causes.{one_more};
ghost use Rattle.h2_disk.specs.Trace.{Opened};
ghost use Rattle.h2_disk.specs.RecordLaws.{record_left};
ghost use Rattle.h2_disk.specs.Disk.{Keeps, Writes, Syncs, CountsWants};
ghost use Rattle.h2_disk.specs.Sure.{sure_image, sure_trace, sure_moment, sure_wants};

use crate::disk::count_want;
use crate::recording::Recording;
use crate::{Disk, DiskFault};
use h2_num::NoMemory;
use std::alloc::Global;

/// A disk in memory that never fails. It takes 16 KiB for each page that was written, and room for a
/// copy of each write. Want of memory refuses a write or a sync, and so does each from moment
/// 2^64 - 2 on. Its count of wants of memory rises at each of these and at nothing else.
#[derive(Drop)]
pub struct SureDisk {
    recording: Recording,
    wants: u64,
}

impl SureDisk {
    /// An empty disk at moment 0.
    pub fn new(alloc: Global) -> Result<SureDisk, NoMemory>
        ensures image { IfOk result (λ disk. sure_image disk ≡ (λ k. 0)) }
        ensures trace { IfOk result (λ disk. sure_trace disk ≡ Opened (λ k. 0)) }
        ensures moment { IfOk result (λ disk. sure_moment disk ≡ 0) }
        ensures wants { IfOk result (λ disk. sure_wants disk ≡ 0) }
    {
        Ok(SureDisk {
            recording: Recording::new(alloc),
            wants: 0,
        })
    }
}

impl Disk for SureDisk {
    ghost tells = { true };

    ghost image = { sure_image };

    ghost trace = { sure_trace };

    ghost faults = { λ disk. 0 };

    ghost wants = { sure_wants };

    ghost moment = { sure_moment };

    ghost moment_fits = { λ disk. disk.recording.fits };

    ghost trace_past = { λ disk. disk.recording.past };

    ghost left_now = { λ disk tells. record_left disk.recording.entries.items disk.recording.moment disk.recording.past };

    /// Fills the buffer with the image's bytes from the place on.
    fn read(&mut self, at: u64, buf: &mut [u8]) -> Result<(), DiskFault>
        requires { at + length buf.old ≤ 2 ^ 34 }
        ensures ok { IsOk result }
        ensures bytes { SameBelow (length buf.new) (from_place (sure_image self.old) at) (places buf.new) }
        ensures keeps { Keeps (sure_image self.old) (sure_image self.new) (sure_trace self.old) (sure_trace self.new) }
        ensures time { sure_moment self.new ≡ sure_moment self.old }
        ensures wants { sure_wants self.new ≡ sure_wants self.old }
    {
        self.recording.read(at, buf);
        Ok(())
    }

    /// Puts the bytes at the place. Where it is refused, for want of memory or from moment 2^64 - 2 on,
    /// the old bytes stay.
    fn write(&mut self, at: u64, bytes: &[u8]) -> Result<(), DiskFault>
        requires { at + length bytes.now ≤ 2 ^ 34 }
        ensures wrote { OnOk result (Writes (sure_moment self.new) at bytes.now (sure_image self.old) (sure_image self.new) (sure_trace self.old) (sure_trace self.new)) }
        ensures failed { OnErr result (Keeps (sure_image self.old) (sure_image self.new) (sure_trace self.old) (sure_trace self.new)) }
        ensures time { sure_moment self.new ≡ one_more (sure_moment self.old) }
        ensures end { 2 ^ 64 - 2 ≤ sure_moment self.old → IsErr result }
        ensures memory { IfErr result (λ fault. fault ≡ DiskFault.NoMemory) }
        ensures wants { CountsWants (sure_wants self.old) (sure_wants self.new) result }
    {
        let Ok(()) = self.recording.write(at, bytes) else {
            return Err(count_want(&mut self.wants));
        };
        Ok(())
    }

    /// Makes the image durable. It is refused for want of memory or from moment 2^64 - 2 on.
    fn sync(&mut self) -> Result<(), DiskFault>
        ensures synced { OnOk result (Syncs (sure_moment self.new) (sure_image self.old) (sure_image self.new) (sure_trace self.old) (sure_trace self.new)) }
        ensures failed { OnErr result (Keeps (sure_image self.old) (sure_image self.new) (sure_trace self.old) (sure_trace self.new)) }
        ensures time { OnOk result (sure_moment self.new ≡ sure_moment self.old + 2) }
        ensures time_failed { OnErr result (sure_moment self.new ≡ one_more (sure_moment self.old)) }
        ensures end { 2 ^ 64 - 2 ≤ sure_moment self.old → IsErr result }
        ensures memory { IfErr result (λ fault. fault ≡ DiskFault.NoMemory) }
        ensures wants { CountsWants (sure_wants self.old) (sure_wants self.new) result }
    {
        let Ok(()) = self.recording.sync() else {
            return Err(count_want(&mut self.wants));
        };
        Ok(())
    }

    fn moment(&self) -> u64 {
        self.recording.moment()
    }
}
