ghost use Rattle.std.specs.Prelude.{false, []};
ghost use Rattle.h2_io.specs.MemSink.{faults_of};

use super::running::{ALREADY_1, FORMAT_4, FORMATTED_4, empty_disk, expect, run};
use h2_disk::Disk;
use h2_io::{MemSink, PutFault, Sink, StdSink, print};
use std::cell::Cell;
use std::io::{self, ErrorKind, Write};
use std::test::Fail;

// A sink that takes one byte of each piece.
#[derive(Drop)]
struct SlowSink {
    inner: MemSink,
}

impl Sink for SlowSink {
    ghost tells = { false };

    ghost never_wants_memory = { false };

    ghost held = { λ sink. [] };

    ghost faults = { λ sink. faults_of sink.inner };

    fn put(&mut self, bytes: &[u8]) -> Result<usize, PutFault> {
        self.inner.put(&bytes[..1])
    }
}

#[test]
fn a_volume_stands_without_its_line(rt: HostRuntime) -> Result<(), Fail> {
    let alloc = rt.alloc();
    let mut out = MemSink::new(alloc, Some(0));
    let (status, disk) = run(alloc, &FORMAT_4, empty_disk(alloc, &[], &[])?, &mut out)?;
    assert_eq!(rt; status, 4);
    assert_eq!(rt; out.bytes(), b"".as_slice());
    let disk = expect(&rt, &FORMAT_4, disk, 8, ALREADY_1)?;
    assert_eq!(rt; disk.moment(), 11);
    Ok(())
}

#[test]
fn a_refusal_stays_without_its_line(rt: HostRuntime) -> Result<(), Fail> {
    let alloc = rt.alloc();
    let mut out = MemSink::new(alloc, Some(0));
    let (status, disk) = run(alloc, &[], empty_disk(alloc, &[1], &[])?, &mut out)?;
    assert_eq!(rt; status, 1);
    let mut out = MemSink::new(alloc, Some(0));
    let (status, disk) = run(alloc, &FORMAT_4, disk, &mut out)?;
    assert_eq!(rt; status, 5);
    let disk = expect(&rt, &FORMAT_4, disk, 0, FORMATTED_4)?;
    let mut out = MemSink::new(alloc, Some(0));
    let (status, _) = run(alloc, &FORMAT_4, disk, &mut out)?;
    assert_eq!(rt; status, 8);
    Ok(())
}

#[test]
fn a_sink_may_take_a_byte_at_a_time(rt: HostRuntime) -> Result<(), Fail> {
    let alloc = rt.alloc();
    // the number of the call that fails, and what is held then
    let table = [(None, 0, FORMATTED_4), (Some(5), 4, "forma")];
    for (fail, want, line) in table {
        let mut out = SlowSink {
            inner: MemSink::new(alloc, fail),
        };
        let (status, _) = run(alloc, &FORMAT_4, empty_disk(alloc, &[], &[])?, &mut out)?;
        assert_eq!(rt; status, want);
        assert_eq!(rt; out.inner.bytes(), line.as_bytes());
    }
    Ok(())
}

// A writer with room for some bytes, which is interrupted a number of times and takes nothing once it is full.
#[derive(Drop)]
struct Narrow<'a> {
    room: &'a Cell<usize>,
    interruptions: &'a Cell<usize>,
}

impl<'a> Write for Narrow<'a> {
    fn write(&mut self, buf: &[u8]) -> io::Result<usize> {
        let left = self.interruptions.get();
        if left > 0 {
            self.interruptions.set(left - 1);
            return Err(io::Error::from(ErrorKind::Interrupted));
        }
        let room = self.room.get();
        let count = buf.len().min(room);
        self.room.set(room - count);
        Ok(count)
    }

    fn flush(&mut self) -> io::Result<()> {
        Ok(())
    }
}

#[test]
fn an_interrupted_write_is_tried_again(rt: HostRuntime) -> Result<(), Fail> {
    let room = Cell::new(10);
    let interruptions = Cell::new(3);
    let mut out = StdSink::new(Narrow {
        room: &room,
        interruptions: &interruptions,
    });
    assert_eq!(rt; print(&mut out, b"text"), Ok(()));
    assert_eq!(rt; interruptions.get(), 0);
    assert_eq!(rt; room.get(), 6);
    Ok(())
}

#[test]
fn a_writer_that_takes_nothing_has_failed(rt: HostRuntime) -> Result<(), Fail> {
    let room = Cell::new(3);
    let interruptions = Cell::new(0);
    let mut out = StdSink::new(Narrow {
        room: &room,
        interruptions: &interruptions,
    });
    assert_eq!(rt; print(&mut out, b"text"), Err(PutFault::Failed));
    assert_eq!(rt; room.get(), 0);
    room.set(4);
    assert_eq!(rt; print(&mut out, b"text"), Ok(()));
    Ok(())
}
