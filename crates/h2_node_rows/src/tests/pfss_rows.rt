use super::pfss::Pfss;
use h2_pfs::PfsFault;
use std::test::Fail;

#[test]
fn a_pfs_comes_and_goes(rt: HostRuntime) -> Result<(), Fail> {
    let alloc = rt.alloc();
    let mut pfss = Pfss::new(alloc)?;
    assert_eq!(rt; pfss.add(alloc, 1, b"home")?, Ok(()));
    assert_eq!(rt; pfss.find(alloc, b"home"), Ok(1));
    let names = pfss.names(alloc)?;
    let names = names.items();
    assert_eq!(rt; names.len(), 1);
    assert_eq!(rt; names[0].as_slice(), b"home".as_slice());
    assert_eq!(rt; pfss.remove(alloc, b"home", 1), Err(PfsFault::InUse(1)));
    assert_eq!(rt; pfss.remove(alloc, b"home", 0), Ok(()));
    assert_eq!(rt; pfss.find(alloc, b"home"), Err(PfsFault::NoPfs));
    Ok(())
}
