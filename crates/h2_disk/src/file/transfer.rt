ghost use Rattle.std.specs.Prelude.{◌≡◌, ◌+◌, ◌≤◌, ◌<◌, ◌↔◌, length, take, drop, IsTrue, OnOk, IfOk, IfSome, MatchResult};
ghost use Rattle.std.specs.Io.KnownBytes.{Keeps, Appends, Consumes, IsAtEnd};
ghost use Rattle.h2_num.specs.Places.{places, SameBelow};

use crate::zeros::clear_range;
use std::io::{self, ErrorKind, Read, Write};

/// Fills the buffer; past the reader's end stand zeros. A read that a signal interrupted is tried again.
pub fn fill<F: Read>(reader: &mut F, buf: &mut [u8]) -> io::Result<()>
    ensures { OnOk result (IfSome (F.remaining reader.old) (λ bytes. SameBelow (length buf.new) (places bytes) (places buf.new))) }
{
    let mut done = 0;
    for _ in 0..u64::MAX {
        if done == buf.len() {
            return Ok(());
        }
        match read_some(reader, buf, done) {
            Ok(0) => {
                let rest = buf.len() - done;
                clear_range(buf, done, rest);
                return Ok(());
            }
            Ok(count) => done += count,
            Err(error) => {
                if error.kind() != ErrorKind::Interrupted {
                    return Err(error);
                }
            }
        }
    }
    Err(io::Error::from(ErrorKind::TimedOut))
}

// One read into the buffer from a place on.
fn read_some<F: Read>(reader: &mut F, buf: &mut [u8], from: usize) -> io::Result<usize>
    requires { from ≤ length buf.old }
    ensures bound { IfOk result (λ count. from + count ≤ length buf.new) }
    ensures before { take from buf.new ≡ take from buf.old }
    ensures given { MatchResult result (λ count. Consumes (F.remaining reader.old) (F.remaining reader.new) (take count (drop from buf.new))) (λ error. Keeps (F.remaining reader.old) (F.remaining reader.new)) }
    ensures end { IfOk result (λ count. count ≡ 0 → from < length buf.new → IsAtEnd (F.remaining reader.new)) }
{
    reader.read(&mut buf[from..])
}

/// Writes all the bytes. A write that a signal interrupted is tried again.
pub fn put<F: Write>(writer: &mut F, bytes: &[u8]) -> io::Result<()>
    ensures { OnOk result (Appends (F.contents writer.old) (F.contents writer.new) bytes.now) }
{
    let mut done = 0;
    for _ in 0..u64::MAX {
        if done == bytes.len() {
            return Ok(());
        }
        match writer.write(&bytes[done..]) {
            Ok(0) => return Err(io::Error::from(ErrorKind::WriteZero)),
            Ok(count) => done += count,
            Err(error) => {
                if error.kind() != ErrorKind::Interrupted {
                    return Err(error);
                }
            }
        }
    }
    Err(io::Error::from(ErrorKind::TimedOut))
}
