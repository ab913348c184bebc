ghost use Rattle.std.specs.Prelude.{◌≡◌};
ghost use Rattle.h2_pfs.specs.Mets.{id_in};

use h2_num::Name;

/// What a scan keeps of a PFS.
#[derive(Drop)]
pub(crate) struct Met {
    /// Its id.
    pub id: u64,
    /// Its name.
    pub name: Name,
}

/// The id of the first PFS with the name.
pub(crate) fn id_in(pfss: &[Met], name: &[u8]) -> Option<u64>
    ensures { result ≡ id_in name.now pfss.now }
{
    for pfs in pfss {
        if pfs.name.as_slice() == name {
            return Some(pfs.id);
        }
    }
    None
}
