/// What a power cut does to the writes since the last sync that had succeeded.
#[derive(Clone, Copy, Debug, PartialEq, Eq)]
pub enum Choice {
    /// All are lost.
    Old,
    /// All that had begun are kept.
    New,
    /// All are kept, but for the last one, of which only this many bytes are kept. Where there is none,
    /// it is `New`.
    Torn(u32),
}
