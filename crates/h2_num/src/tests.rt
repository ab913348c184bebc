use super::*;
use std::test::Fail;

#[test]
fn fields_lie_low_byte_first(rt: HostRuntime) -> Result<(), Fail> {
    let mut b = [0; 16];
    put64(&mut b, 1, 0x1122_3344_5566_7788);
    put16(&mut b, 9, 0xaabb);
    put32(&mut b, 11, 0xccdd_eeff);
    put8(&mut b, 15, 0x99);
    let want = [
        0, 0x88, 0x77, 0x66, 0x55, 0x44, 0x33, 0x22, 0x11, 0xbb, 0xaa, 0xff, 0xee, 0xdd, 0xcc, 0x99,
    ];
    assert_eq!(rt; b.as_slice(), want.as_slice());
    assert_eq!(rt; get64(&b, 1), 0x1122_3344_5566_7788);
    assert_eq!(rt; get16(&b, 9), 0xaabb);
    assert_eq!(rt; get32(&b, 11), 0xccdd_eeff);
    assert_eq!(rt; first_nonzero(&b, 0, 16), Some(1));
    assert_eq!(rt; first_nonzero(&b, 1, 1), None);
    put_bytes(&mut b, 3, b"name");
    assert_eq!(rt; &b[3..7], b"name".as_slice());
    clear(&mut b);
    assert_eq!(rt; first_nonzero(&b, 0, 16), None);
    Ok(())
}

#[test]
fn bytes_and_names_are_kept(rt: HostRuntime) -> Result<(), Fail> {
    let alloc = rt.alloc();
    let bytes = Bytes::from_slice(alloc, b"contents").ok().ok_or("memory")?;
    let copy = bytes.copy(alloc).ok().ok_or("memory")?;
    assert_eq!(rt; copy.as_slice(), b"contents".as_slice());
    let name = Name::from_slice(alloc, b"a").ok().ok_or("memory")?;
    let mut names = Names::new(alloc);
    names.push(name).ok().ok_or("memory")?;
    assert_eq!(rt; names.items().len(), 1);
    Ok(())
}
