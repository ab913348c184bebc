use super::*;
use std::fs;
use std::fs::File;
use std::test::Fail;

#[test]
fn a_sink_in_memory_fails_at_its_call_alone(rt: HostRuntime) -> Result<(), Fail> {
    let mut sink = MemSink::new(rt.alloc(), Some(1));
    assert_eq!(rt; print(&mut sink, b"one "), Ok(()));
    assert_eq!(rt; print(&mut sink, b"two "), Err(PutFault::Failed));
    assert_eq!(rt; print(&mut sink, b"three"), Ok(()));
    assert_eq!(rt; sink.bytes(), b"one three".as_slice());
    Ok(())
}

#[test]
fn a_writer_holds_what_a_sink_in_memory_does(rt: HostRuntime) -> Result<(), Fail> {
    let mut sink = MemSink::new(rt.alloc(), None);
    let mut file = StdSink::new(File::create(&rt, "text")?);
    for piece in ["formatted zones 4 ", "chunks 8192", "\n"] {
        assert_eq!(rt; print(&mut sink, piece.as_bytes()), Ok(()));
        assert_eq!(rt; print(&mut file, piece.as_bytes()), Ok(()));
    }
    let written = fs::read(&rt, "text")?;
    assert_eq!(rt; written.as_slice(), sink.bytes());
    fs::remove_file(&rt, "text")?;
    Ok(())
}

#[test]
fn a_full_device_is_a_fault(rt: HostRuntime) -> Result<(), Fail> {
    let mut full = StdSink::new(fs::OpenOptions::new().write(true).open(&rt, "/dev/full")?);
    assert_eq!(rt; print(&mut full, b"text"), Err(PutFault::Failed));
    Ok(())
}
