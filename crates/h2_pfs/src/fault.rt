use h2_ref::Trouble;

/// Why a call on PFSs was refused.
#[derive(Clone, Copy, Debug, PartialEq, Eq)]
pub enum PfsFault {
    /// No PFS has the name.
    NoPfs,
    /// A PFS has the name.
    Exists,
    /// There are 64 PFSs or more.
    Full,
    /// So many handles name files of the PFS.
    InUse(u32),
    /// A load failed, or memory ran out.
    Trouble(Trouble),
}

impl From<Trouble> for PfsFault {
    ghost use Rattle.std.specs.Prelude.{◌≡◌};
    ghost use Rattle.h2_pfs.specs.declared.fault.PfsFault.TheVariants.{Trouble as Troubled};

    ghost from_gives = { λ trouble fault. fault ≡ Troubled trouble };

    fn from(trouble: Trouble) -> PfsFault {
        PfsFault::Trouble(trouble)
    }
}
