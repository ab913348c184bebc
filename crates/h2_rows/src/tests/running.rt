ghost use Rattle.std.specs.Prelude.{◌≡◌, ◌+◌, ◌≤◌, IfOk, vec_len};
ghost use Rattle.h2_disk.specs.Mem.{mem_moment};

use h2_cmd::{Outcome, find_newest, run_alone};
use h2_disk::{Disk, MemDisk};
use h2_header::HEADER_BYTES;
use h2_io::{MemSink, Sink};
use std::alloc::Global;
use std::process::Abort;
use std::test::Fail;

/// The line of a new volume of four zones.
pub const FORMATTED_4: &str = "formatted zones 4 chunks 8192 reserved 1024 free 7167\n";

/// The line of a new volume of nine zones.
pub const FORMATTED_9: &str = "formatted zones 9 chunks 18432 reserved 2304 free 16127\n";

/// The line of words that ask for nothing.
pub const USAGE: &str = "usage: h2 COMMAND IMAGE [ARGUMENTS]\n";

/// The line of a disk that failed.
pub const DISK_FAULT: &str = "disk fault\n";

/// The line of an image whose newest header is the first.
pub const ALREADY_1: &str = "already formatted: header 1\n";

/// The words that make a volume of four zones.
pub const FORMAT_4: [&str; 3] = ["format", "IMG", "4"];

/// An empty disk that fails at these moments and at these reads.
pub fn empty_disk(alloc: Global, moments: &[u64], reads: &[u64]) -> Result<MemDisk, Fail>
    ensures { IfOk result (λ disk. mem_moment disk ≡ 0) }
{
    let moments = Vec::from_slice(alloc, moments)?;
    let reads = Vec::from_slice(alloc, reads)?;
    Ok(MemDisk::new(alloc, moments, reads)?)
}

/// Runs the words on the disk into the sink, and answers the status and the disk.
pub fn run<D: Disk + Drop, K: Sink>(
    alloc: Global,
    texts: &[&str],
    disk: D,
    out: &mut K,
) -> Result<(u8, D), Fail> {
    let mut words = Vec::with_capacity(alloc, texts.len())?;
    for text in texts {
        words.push(String::from_str(alloc, *text)?)?;
    }
    let Outcome { status, disk } = run_alone(alloc, &words, disk, out);
    Ok((status, disk))
}

/// Runs the words on the disk, asserts the status and the line, and answers the disk.
pub fn expect<D: Disk + Drop>(
    rt: &(impl Abort + AllocGlobal),
    texts: &[&str],
    disk: D,
    status: u8,
    line: &str,
) -> Result<D, Fail> {
    let mut out = MemSink::new(rt.alloc(), None);
    let (found, disk) = run(rt.alloc(), texts, disk, &mut out)?;
    assert_eq!(rt; found, status, "{texts:?}");
    assert_eq!(rt; out.bytes(), line.as_bytes(), "{texts:?}");
    Ok(disk)
}

/// The number of the newest header of the disk.
pub fn newest_header<D: Disk>(alloc: Global, disk: &mut D) -> Result<Option<u64>, Fail> {
    let mut block = vec![in alloc; 0u8; HEADER_BYTES]?;
    Ok(find_newest(disk, &mut block)?)
}

/// The bytes of so many places of the disk, from a place on.
pub fn bytes_at<D: Disk>(
    alloc: Global,
    disk: &mut D,
    at: u64,
    count: usize,
) -> Result<Vec<u8>, Fail>
    requires { at + count ≤ 17179869184 }
    ensures { IfOk result (λ bytes. vec_len bytes ≡ count) }
{
    let mut bytes = vec![in alloc; 0u8; count]?;
    disk.read(at, &mut bytes)?;
    Ok(bytes)
}
