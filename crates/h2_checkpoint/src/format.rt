ghost use Rattle.h2_checkpoint.specs.Runs.{CrashLaw};
ghost use Rattle.h2_checkpoint.specs.Stands.{CutLaw, StandsOpened, StandsAfterRead, StandsAfterWrite, StandsFrozen, StandsNewest, StandsQueued};

/// A format of volumes, as a type that stands for it: what blocks and headers are, and what an image
/// with a header stands for.
pub trait VolumeFormat {
    ghost use Rattle.h2_checkpoint.specs.Format.{Format};

    ghost format: { Format };
}

/// The law of crashes. From an opening on, reads, writes beside the checkpoints, and the calls of
/// flushes, well or not, lead in any order to states of which a cut at any moment since the opening
/// mounts the newest completed checkpoint, or the one whose header was under way.
pub fn crash_law<V: VolumeFormat>()
    ensures law { CrashLaw V.format }
{}

/// The law of cuts. Where a volume stands on a disk that was durable at the opening, a cut at any moment
/// since, by the disk's own trace, leaves an image that mounts the newest completed checkpoint, or the
/// one whose header was under way.
pub fn cut_law<V: VolumeFormat>()
    ensures law { CutLaw V.format }
{}

/// The law of standing: how a volume goes on between the calls of flushes. One that is opened on a disk
/// stands there. It stands there still after a read, or a write that meets no slot, no block of the
/// newest completed checkpoint and nothing that a flush under way has frozen or queued, well or not. Where no
/// flush is under way, a planned checkpoint may be frozen, and its flush begins. A read gives the blocks of the
/// newest completed checkpoint as they were frozen, and those of the frozen one by way of its queue.
pub fn stands_law<V: VolumeFormat>()
    ensures opens { StandsOpened V.format }
    ensures reads { StandsAfterRead V.format }
    ensures writes { StandsAfterWrite V.format }
    ensures freezes { StandsFrozen V.format }
    ensures newest { StandsNewest V.format }
    ensures queued { StandsQueued V.format }
{}
