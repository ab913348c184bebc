ghost use Rattle.std.specs.Prelude.{◌<◌, IfSome, length};

use h2_num::NoMemory;
use h2_pfs::PfsFault;
use std::alloc::Global;

/// The length of a name.
pub(super) const NAME_BYTES: usize = 5;

/// A PFS: its id and its name.
#[derive(Clone, Copy, Debug, PartialEq, Eq)]
pub(super) struct PlainPfs {
    pub id: u64,
    pub name: [u8; NAME_BYTES],
}

/// PFSs as a plain list, in order of their ids.
#[derive(Drop)]
pub(super) struct PlainPfss {
    pub pfss: Vec<PlainPfs>,
}

impl PlainPfss {
    /// None.
    pub fn new(alloc: Global) -> PlainPfss {
        PlainPfss {
            pfss: Vec::new(alloc),
        }
    }

    // The place of the PFS with a name.
    fn place(&self, name: &[u8]) -> Option<usize>
        ensures { IfSome result (λ i. i < length self.now.pfss.items) }
    {
        self.pfss.iter().position(|p| p.name.as_slice() == name)
    }

    /// The id of the PFS with a name.
    pub fn find(&self, name: &[u8]) -> Result<u64, PfsFault> {
        match self.place(name) {
            Some(i) => Ok(self.pfss[i].id),
            None => Err(PfsFault::NoPfs),
        }
    }

    /// Adds a PFS before those with greater ids: at most 64, and each with another name.
    pub fn add(&mut self, pfs: PlainPfs) -> Result<Result<(), PfsFault>, NoMemory> {
        if self.place(&pfs.name).is_some() {
            return Ok(Err(PfsFault::Exists));
        }
        if self.pfss.len() >= 64 {
            return Ok(Err(PfsFault::Full));
        }
        let behind = self.pfss.iter().position(|p| p.id > pfs.id);
        match behind {
            Some(i) => self.pfss.insert(i, pfs)?,
            None => self.pfss.push(pfs)?,
        }
        Ok(Ok(()))
    }

    /// Takes out the PFS with a name, in which so many handles are open.
    pub fn remove(&mut self, name: &[u8], handles: u32) -> Result<(), PfsFault> {
        let Some(i) = self.place(name) else {
            return Err(PfsFault::NoPfs);
        };
        if handles > 0 {
            return Err(PfsFault::InUse(handles));
        }
        self.pfss.remove(i);
        Ok(())
    }
}
