ghost use Rattle.std.specs.Prelude.{◌≡◌, ◌<◌, ◌+◌};
ghost use Rattle.h2_geom.specs.Geometry.{segments_of};
ghost use Rattle.h2_codes.specs.declared.code.Code.TheVariants.{Staged, Used};
ghost use Rattle.h2_codes.specs.Bulkfree.{count_unseen};
ghost use Rattle.h2_freemap.specs.Free.{free_of};
ghost use Rattle.h2_freemap.specs.Sweeping.{Sweeps, segment_at};

use crate::cursor::keep_cursor;
use crate::freemap::Freemap;
use h2_codes::Seen;

impl Freemap {
    /// Gives each chunk of a segment the code that a pass of bulkfree makes of it, and forgets a cursor
    /// whose chunk became free. Answers how many chunks became staged, and how many free.
    pub fn apply(&mut self, s: u32, seen: &Seen) -> (u32, u32)
        requires in_volume { s < segments_of self.old.zones }
        ensures sweeps { Sweeps s seen.now self.old self.new }
        ensures staged { result.0 ≡ count_unseen Used (segment_at self.old s) seen.now }
        ensures freed { result.1 ≡ count_unseen Staged (segment_at self.old s) seen.now }
        ensures free { free_of self.new ≡ free_of self.old + result.1 }
    {
        let counts = self.segments[s as usize].apply(seen);
        self.free += counts.1 as u64;
        self.small = keep_cursor(self.small, &self.segments);
        self.middle = keep_cursor(self.middle, &self.segments);
        counts
    }
}
