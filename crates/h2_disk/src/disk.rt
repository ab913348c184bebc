ghost use Rattle.std.specs.Prelude.{◌≡◌, ◌+◌, ◌-◌, ◌^◌, ◌≤◌, ◌<◌, ℕ, Bool, IsTrue, length, OnOk, OnErr, IfErr, IsErr};
ghost use Rattle.h2_num.specs.Places.{Places, places, SameBelow, from_place};
ghost use Rattle.h2_num.specs.Causes.{one_more};
ghost use Rattle.h2_disk.specs.Trace.{Trace, latest, LeftAt};

/// Why a call of a disk was refused.
#[derive(Clone, Copy, Debug, PartialEq, Eq)]
pub enum DiskFault {
    /// The disk failed, and its count of faults rose.
    Failed,
    /// Memory was wanting, and the disk's count of wants rose.
    NoMemory,
}

/// A disk of the byte places below 2^34. A place never written reads 0.
///
/// What a disk tells of itself is its image and its trace. A type that tells neither, as a disk over a
/// real file, is bound by the clauses on moments, causes and memory alone.
pub trait Disk {
    ghost use Rattle.h2_disk.specs.Disk.{HasCause, CountsWants, Keeps, Writes, FailsToWrite, Syncs};

    /// Whether disks of this type tell their image and their trace.
    ghost tells: { Bool };

    /// What a read gives at each place.
    ghost image: { Self → Places };

    /// The image at moment 0, and then the writes that began and the syncs that were done.
    ghost trace: { Self → Trace };

    /// How often the disk has failed.
    ghost faults: { Self → ℕ };

    /// How often the disk has answered that memory was wanting. Of a type that never does, it is constant.
    ghost wants: { Self → ℕ };

    /// Writes and syncs begun, and syncs that succeeded.
    ghost moment: { Self → ℕ };

    /// Fills the buffer with the image's bytes from the place on. After a fault the buffer may hold
    /// anything, and the image is as before.
    fn read(&mut self, at: u64, buf: &mut [u8]) -> Result<(), DiskFault>
        requires { at + length buf.old ≤ 2 ^ 34 }
        ensures bytes { OnOk result (IsTrue tells → SameBelow (length buf.new) (from_place (image self.old) at) (places buf.new)) }
        ensures keeps { IsTrue tells → Keeps (image self.old) (image self.new) (trace self.old) (trace self.new) }
        ensures time { moment self.new ≡ moment self.old }
        ensures later { faults self.old ≤ faults self.new }
        ensures cause { IfErr result (λ fault. HasCause (faults self.old) (faults self.new) fault) }
        ensures memory { CountsWants (wants self.old) (wants self.new) result };

    /// Puts the bytes at the place. After a fault the range may hold any bytes, and all else stays.
    fn write(&mut self, at: u64, bytes: &[u8]) -> Result<(), DiskFault>
        requires { at + length bytes.now ≤ 2 ^ 34 }
        ensures wrote { OnOk result (IsTrue tells → Writes (moment self.new) at bytes.now (image self.old) (image self.new) (trace self.old) (trace self.new)) }
        ensures failed { OnErr result (IsTrue tells → FailsToWrite (moment self.new) at bytes.now (image self.old) (image self.new) (trace self.old) (trace self.new)) }
        ensures time { moment self.new ≡ one_more (moment self.old) }
        ensures end { 2 ^ 64 - 2 ≤ moment self.old → IsErr result }
        ensures later { faults self.old ≤ faults self.new }
        ensures cause { IfErr result (λ fault. HasCause (faults self.old) (faults self.new) fault) }
        ensures memory { CountsWants (wants self.old) (wants self.new) result };

    /// Makes the image durable: what a power cut leaves until the next write begins. After a fault no
    /// promise is gained.
    fn sync(&mut self) -> Result<(), DiskFault>
        ensures synced { OnOk result (IsTrue tells → Syncs (moment self.new) (image self.old) (image self.new) (trace self.old) (trace self.new)) }
        ensures failed { OnErr result (IsTrue tells → Keeps (image self.old) (image self.new) (trace self.old) (trace self.new)) }
        ensures time { OnOk result (moment self.new ≡ moment self.old + 2) }
        ensures time_failed { OnErr result (moment self.new ≡ one_more (moment self.old)) }
        ensures end { 2 ^ 64 - 2 ≤ moment self.old → IsErr result }
        ensures later { faults self.old ≤ faults self.new }
        ensures cause { IfErr result (λ fault. HasCause (faults self.old) (faults self.new) fault) }
        ensures memory { CountsWants (wants self.old) (wants self.new) result };

    /// The moment: it rises by one when a write or a sync begins, and by one more when a sync succeeds.
    fn moment(&self) -> u64
        ensures { result ≡ moment self.now };

    /// The moment is a number of 64 bits.
    ghost moment_fits: { (disk : Self) → moment disk < 2 ^ 64 };

    /// All that the trace has was done by the moment.
    ghost trace_past: { (disk : Self) → latest (trace disk) ≤ moment disk };

    /// What a read gives is among what a power cut at this moment may leave.
    ghost left_now: { (disk : Self) → IsTrue tells → LeftAt (trace disk) (moment disk) (image disk) };
}

/// Counts that memory was wanting.
pub(crate) fn count_want(wants: &mut u64) -> DiskFault
    ensures fault { result ≡ DiskFault.NoMemory }
    ensures counted { wants.new ≡ one_more wants.old }
{
    *wants = wants.saturating_add(1);
    DiskFault::NoMemory
}
