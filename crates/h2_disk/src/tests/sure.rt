use crate::{Disk, SureDisk};
use std::test::Fail;

// The last place of a disk.
const LAST: u64 = 17_179_869_183;

#[test]
fn what_was_written_is_read_back(rt: HostRuntime) -> Result<(), Fail> {
    let mut disk = SureDisk::new(rt.alloc())?;
    disk.write(16382, b"page")?;
    disk.sync()?;
    disk.write(LAST, b"z")?;
    let mut buf = [1; 8];
    disk.read(16380, &mut buf)?;
    assert_eq!(rt; buf.as_slice(), b"\0\0page\0\0".as_slice());
    disk.read(LAST - 7, &mut buf)?;
    assert_eq!(rt; buf.as_slice(), b"\0\0\0\0\0\0\0z".as_slice());
    disk.read(1 << 33, &mut buf)?;
    assert_eq!(rt; buf, [0; 8]);
    assert_eq!(rt; disk.moment(), 4);
    Ok(())
}

#[test]
fn many_writes_are_kept(rt: HostRuntime) -> Result<(), Fail> {
    let mut disk = SureDisk::new(rt.alloc())?;
    for k in 0..20_000u64 {
        let at = k % 500 * 4096;
        disk.write(at, &k.to_le_bytes())?;
        let mut buf = [0; 8];
        disk.read(at, &mut buf)?;
        assert_eq!(rt; buf, k.to_le_bytes());
    }
    assert_eq!(rt; disk.moment(), 20_000);
    Ok(())
}
