ghost use Rattle.std.specs.Prelude.{◌≡◌, length};

use super::running::{FORMAT_4, FORMATTED_4, bytes_at, empty_disk, expect, newest_header};
use h2_disk::SureDisk;
use h2_header::HEADER_BYTES;
use h2_num::put_bytes;
use std::process::Abort;
use std::test::Fail;

// Slots are so many bytes apart.
const SLOT_STRIDE: u64 = 33_554_432;

// A disk with these bytes in the slots from one on has no header, and is formatted.
fn check_image(rt: &(impl Abort + AllocGlobal), first: u32, block: &[u8]) -> Result<(), Fail>
    requires { length block.now ≡ 65536 }
{
    let mut disk = empty_disk(rt.alloc(), &[], &[])?;
    for slot in first..4 {
        disk.poke(SLOT_STRIDE * slot as u64, block)?;
    }
    assert_eq!(rt; newest_header(rt.alloc(), &mut disk)?, None);
    let mut disk = expect(rt, &FORMAT_4, disk, 0, FORMATTED_4)?;
    assert_eq!(rt; newest_header(rt.alloc(), &mut disk)?, Some(1));
    Ok(())
}

#[test]
fn garbage_is_no_header(rt: HostRuntime) -> Result<(), Fail> {
    let mut block = vec![in rt.alloc(); 0xFFu8; HEADER_BYTES]?;
    check_image(&rt, 0, &block)?;
    // the front of a header: the magic, version 1 and four zones
    put_bytes(&mut block, 0, b"H2VOLUME\x01\0\0\0\x04\0\0\0");
    check_image(&rt, 0, &block)
}

#[test]
fn a_header_stands_for_its_own_slot_alone(rt: HostRuntime) -> Result<(), Fail> {
    let disk = SureDisk::new(rt.alloc())?;
    let mut disk = expect(&rt, &FORMAT_4, disk, 0, FORMATTED_4)?;
    let mut block = bytes_at(rt.alloc(), &mut disk, 0, HEADER_BYTES)?;
    check_image(&rt, 1, &block)?;
    // and with one byte flipped for no slot
    block[4000] ^= 1;
    check_image(&rt, 0, &block)
}
