use h2_ref::Trouble;

/// Why a directory isn't read or changed.
#[derive(Clone, Copy, Debug, PartialEq, Eq)]
pub enum DirFault {
    /// No entry has the name.
    NoEntry,
    /// An entry has the name already.
    Exists,
    /// The inode isn't that of a directory.
    NotDir,
    /// A block couldn't be loaded, or memory is wanting.
    Trouble(Trouble),
}

impl From<Trouble> for DirFault {
    ghost use Rattle.std.specs.Prelude.{◌≡◌};
    ghost use Rattle.h2_dir.specs.declared.fault.DirFault.TheVariants.{Trouble};

    ghost from_gives = { λ trouble fault. fault ≡ Trouble trouble };

    fn from(trouble: Trouble) -> DirFault {
        DirFault::Trouble(trouble)
    }
}
