ghost use Rattle.std.specs.Prelude.{◌≡◌, ◌≤◌, [], IfOk};
ghost use Rattle.h2_disk.specs.Trace.{up_to, LeftAt, KeepsDurable};
ghost use Rattle.h2_disk.specs.Cut.{image_cut};
ghost use Rattle.h2_disk.specs.Mem.{mem_image, mem_trace, mem_moment, IsFresh};
ghost use Rattle.h2_disk.specs.declared.choice.Choice.TheVariants.{New};

use super::MemDisk;
use crate::choice::Choice;
use h2_num::NoMemory;

impl MemDisk {
    /// A disk at moment 0, without failures, with what a power cut at the moment leaves by the choice. A
    /// write that failed counts as none. At a moment past the present one it is as at the present one.
    pub fn cut(&self, m: u64, choice: Choice) -> Result<MemDisk, NoMemory>
        ensures image { IfOk result (IsFresh (image_cut choice (up_to m (mem_trace self.now))) [] []) }
        ensures now { IfOk result (λ disk. choice ≡ New → mem_moment self.now ≤ m → mem_image disk ≡ mem_image self.now) }
        ensures left { IfOk result (λ disk. LeftAt (mem_trace self.now) m (mem_image disk)) }
        ensures keeps { IfOk result (λ disk. KeepsDurable (up_to m (mem_trace self.now)) (mem_image disk)) }
    {
        let alloc = self.recording.alloc();
        Ok(MemDisk::over(
            self.recording.cut(m, choice)?,
            Vec::new(alloc),
            Vec::new(alloc),
        ))
    }

    /// A disk at moment 0 with the same image and these failures, as for `new`.
    pub fn again(&self, fail_moments: Vec<u64>, fail_reads: Vec<u64>) -> Result<MemDisk, NoMemory>
        ensures { IfOk result (IsFresh (mem_image self.now) fail_moments.items fail_reads.items) }
    {
        Ok(MemDisk::over(self.recording.copy()?, fail_moments, fail_reads))
    }
}
