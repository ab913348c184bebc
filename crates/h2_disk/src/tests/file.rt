use crate::{Disk, DiskFault, FileDisk};
use std::fs;
use std::test::Fail;

#[test]
fn a_file_keeps_what_was_written(rt: HostRuntime) -> Result<(), Fail> {
    let _ = fs::remove_file(&rt, "disk.img");
    let mut disk = FileDisk::new(rt.clone()?, String::from_str(rt.alloc(), "disk.img")?);
    assert_eq!(rt; disk.sync(), Ok(()), "nothing is opened yet");
    assert!(rt; fs::read(&rt, "disk.img").is_err());
    disk.write(3, b"abc")?;
    disk.sync()?;
    assert_eq!(rt; disk.moment(), 5);
    let mut buf = [9; 8];
    disk.read(1, &mut buf)?;
    assert_eq!(rt; buf.as_slice(), b"\0\0abc\0\0\0".as_slice());
    disk.read(1 << 33, &mut buf)?;
    assert_eq!(rt; buf, [0; 8]);
    assert_eq!(rt;
        fs::read(&rt, "disk.img")?.as_slice(),
        b"\0\0\0abc".as_slice()
    );
    fs::remove_file(&rt, "disk.img")?;
    Ok(())
}

#[test]
fn a_file_that_cannot_be_opened_is_a_fault(rt: HostRuntime) -> Result<(), Fail> {
    let mut disk = FileDisk::new(
        rt.clone()?,
        String::from_str(rt.alloc(), "no-folder/image")?,
    );
    assert_eq!(rt; disk.read(0, &mut [0; 4]), Err(DiskFault::Failed));
    assert_eq!(rt; disk.write(0, b"abc"), Err(DiskFault::Failed));
    assert_eq!(rt; disk.moment(), 1);
    Ok(())
}
