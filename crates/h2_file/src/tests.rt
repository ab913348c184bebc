use super::*;
use std::test::Fail;

#[test]
fn blocks_that_a_write_touches(rt: HostRuntime) -> Result<(), Fail> {
    for (size, off, len, first, count, lift) in [
        (0, 0, 512, 0, 0, false),
        (512, 512, 1, 0, 1, false),
        (0, 16383, 3, 0, 2, false),
        (5, 16384, 3, 1, 1, true),
        (20000, 16384, 1, 1, 1, false),
    ] {
        assert_eq!(rt; touched(size, off, len), Touched { first, count, lift });
    }
    Ok(())
}

#[test]
fn bytes_of_a_write_in_a_block(rt: HostRuntime) -> Result<(), Fail> {
    let mut block = [9u8; 16384];
    merge(&mut block, 16384, 16382, &[1, 2, 3, 4]);
    assert_eq!(rt; &block[..3], [3, 4, 9].as_slice());
    merge(&mut block, 16384, 32767, &[5, 6]);
    assert_eq!(rt; &block[16382..], [9, 5].as_slice());
    merge(&mut block, 16384, 32768, &[7]);
    merge(&mut block, 16384, 16383, &[7]);
    merge(&mut block, 0, u64::MAX, &[7]);
    assert_eq!(rt; (block[0], block[16383]), (3, 5));
    Ok(())
}

#[test]
fn the_end_of_a_file(rt: HostRuntime) -> Result<(), Fail> {
    for (off, len, fits) in [
        (0, FILE_BYTES, true),
        (FILE_BYTES, 0, true),
        (FILE_BYTES, 1, false),
        (u64::MAX, u64::MAX, false),
        (1, FILE_BYTES, false),
    ] {
        assert_eq!(rt; check_end(off, len).is_ok(), fits);
    }
    Ok(())
}
