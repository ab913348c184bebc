ghost use Rattle.std.specs.Prelude.{◌+◌, ◌≤◌, length};

use super::running::{ALREADY_1, DISK_FAULT, FORMAT_4, FORMATTED_4, expect, run};
use h2_disk::{Disk, FileDisk, SureDisk};
use h2_io::StdSink;
use std::fs;
use std::test::Fail;

// The bytes of a piece in which images are compared.
const PIECE_BYTES: usize = 65_536;

// The pieces of a volume of four zones up to the leaf of the last zone.
const PIECES: u64 = 1538;

// The bytes up to the end of that leaf.
const IMAGE_BYTES: u64 = 100_729_856;

fn file_disk(rt: &HostRuntime, path: &str) -> Result<FileDisk<HostRuntime>, Fail> {
    let path = String::from_str(rt.alloc(), path)?;
    Ok(FileDisk::new(rt.clone()?, path))
}

// Whether both disks have the same bytes from a place on, as many as each buffer has.
fn is_same(
    file: &mut FileDisk<HostRuntime>,
    disk: &mut SureDisk,
    at: u64,
    found: &mut [u8],
    want: &mut [u8],
) -> Result<bool, Fail>
    requires file { at + length found.old ≤ 17179869184 }
    requires disk { at + length want.old ≤ 17179869184 }
{
    file.read(at, found)?;
    disk.read(at, want)?;
    Ok(*found == *want)
}

#[test]
fn a_file_holds_what_a_disk_in_memory_does(rt: HostRuntime) -> Result<(), Fail> {
    let _ = fs::remove_file(&rt, "file.img");
    let mut file = expect(&rt, &FORMAT_4, file_disk(&rt, "file.img")?, 0, FORMATTED_4)?;
    let mut disk = expect(&rt, &FORMAT_4, SureDisk::new(rt.alloc())?, 0, FORMATTED_4)?;
    let mut found = vec![in rt.alloc(); 0u8; PIECE_BYTES]?;
    let mut want = vec![in rt.alloc(); 0u8; PIECE_BYTES]?;
    for k in 0..PIECES {
        let at = PIECE_BYTES as u64 * k;
        let same = is_same(&mut file, &mut disk, at, &mut found, &mut want)?;
        assert!(rt; same, "from place {at}");
    }
    assert_eq!(rt; fs::metadata(&rt, "file.img")?.len(), IMAGE_BYTES);
    let _file = expect(&rt, &FORMAT_4, file_disk(&rt, "file.img")?, 8, ALREADY_1)?;
    fs::remove_file(&rt, "file.img")?;
    Ok(())
}

#[test]
fn what_is_no_image_is_a_disk_fault(rt: HostRuntime) -> Result<(), Fail> {
    fs::create_dir(&rt, "folder")?;
    for path in ["", "folder", "no-folder/file.img", "/dev/full"] {
        let _disk = expect(&rt, &FORMAT_4, file_disk(&rt, path)?, 5, DISK_FAULT)?;
    }
    assert!(rt; !fs::exists(&rt, "no-folder")?);
    fs::remove_dir(&rt, "folder")?;
    Ok(())
}

#[test]
fn a_file_that_must_not_be_written_stays(rt: HostRuntime) -> Result<(), Fail> {
    fs::write(&rt, "read-only.img", "text")?;
    let mut permissions = fs::metadata(&rt, "read-only.img")?.permissions();
    permissions.set_readonly(true);
    fs::set_permissions(&rt, "read-only.img", permissions)?;
    // the superuser may write it all the same
    let is_refused = fs::OpenOptions::new()
        .write(true)
        .open(&rt, "read-only.img")
        .is_err();
    if is_refused {
        let _disk = expect(
            &rt,
            &FORMAT_4,
            file_disk(&rt, "read-only.img")?,
            5,
            DISK_FAULT,
        )?;
    }
    assert_eq!(rt;
        fs::read(&rt, "read-only.img")?.as_slice(),
        b"text".as_slice()
    );
    fs::remove_file(&rt, "read-only.img")?;
    Ok(())
}

#[test]
fn a_volume_stands_where_the_device_of_its_line_is_full(rt: HostRuntime) -> Result<(), Fail> {
    let mut full = StdSink::new(fs::OpenOptions::new().write(true).open(&rt, "/dev/full")?);
    let disk = SureDisk::new(rt.alloc())?;
    let (status, disk) = run(rt.alloc(), &FORMAT_4, disk, &mut full)?;
    assert_eq!(rt; status, 4);
    let _disk = expect(&rt, &FORMAT_4, disk, 8, ALREADY_1)?;
    Ok(())
}
