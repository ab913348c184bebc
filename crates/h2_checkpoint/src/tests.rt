ghost use Rattle.std.specs.Prelude.{◌≡◌, ◌+◌, ◌≤◌, ◌^◌, length, IfOk, All};
ghost use Rattle.h2_checkpoint.specs.Fits.{FitsDisk};

use super::*;
use h2_disk::{Choice, Disk, DiskFault, MemDisk};
use h2_num::{Bytes, NoMemory};
use std::alloc::Global;
use std::test::Fail;

// The place of the one block.
const BLOCK: u64 = 65536;

// The small format: byte 0 of a header is its number, byte 1 leads to the block behind slot 0.
struct Toy;

impl VolumeFormat for Toy {
    ghost use Rattle.h2_checkpoint.specs.Toy.{toy};

    ghost format = { toy };
}

// The one block, of one byte.
fn block(alloc: Global) -> Result<Vec<Piece>, NoMemory>
    ensures { IfOk result (λ pieces. All (λ piece. piece.at + length piece.bytes ≤ 2 ^ 34) pieces.items) }
{
    let mut pieces = Vec::new(alloc);
    pieces.push(Piece {
        at: BLOCK,
        bytes: Bytes::from_slice(alloc, &[7])?,
    })?;
    Ok(pieces)
}

// The header with number 1.
fn first_header(alloc: Global) -> Result<Bytes, NoMemory>
    ensures { IfOk result (λ header. length header ≡ 65536) }
{
    let mut bytes = vec![in alloc; 0u8; 65536]?;
    bytes[0] = 1;
    Ok(Bytes::from_vec(bytes))
}

// The header's number in slot 0, and the block's byte.
fn seen(disk: &mut MemDisk) -> Result<(u8, u8), DiskFault> {
    let mut number = [9];
    disk.read(0, &mut number)?;
    let mut byte = [9];
    disk.read(BLOCK, &mut byte)?;
    Ok((number[0], byte[0]))
}

// A disk on which the volume was made.
fn made(alloc: Global) -> Result<MemDisk, Fail> {
    let mut disk = MemDisk::new(alloc, Vec::new(alloc), Vec::new(alloc))?;
    let pieces = block(alloc)?;
    let header = first_header(alloc)?;
    make::<MemDisk, Toy>(&mut disk, pieces.as_slice(), 0, header.as_slice())?;
    Ok(disk)
}

// The block's write begins at moment 1, its sync at 2 and is done at 3; the header's write begins at 4,
// its sync at 5 and is done at 6.
#[test]
fn a_cut_leaves_no_header_or_all(rt: HostRuntime) -> Result<(), Fail> {
    crash_law::<Toy>();
    cut_law::<Toy>();
    stands_law::<Toy>();
    let mut disk = made(rt.alloc())?;
    assert_eq!(rt; disk.moment(), 6);
    assert_eq!(rt; seen(&mut disk)?, (1, 7));
    let cuts = [
        (0, Choice::New, (0, 0)),
        (1, Choice::Old, (0, 0)),
        (1, Choice::New, (0, 7)),
        (2, Choice::Old, (0, 0)),
        (3, Choice::Old, (0, 7)),
        (4, Choice::Old, (0, 7)),
        (4, Choice::New, (1, 7)),
        (5, Choice::Torn(0), (0, 7)),
        (6, Choice::Old, (1, 7)),
    ];
    for (moment, choice, left) in cuts {
        let mut cut = disk.cut(moment, choice)?;
        assert_eq!(rt; seen(&mut cut)?, left, "cut at {moment}");
    }
    Ok(())
}

// A flush of the block and the first header.
fn flush(alloc: Global) -> Result<Flushing, NoMemory>
    ensures { IfOk result FitsDisk }
{
    Ok(Flushing {
        pieces: block(alloc)?,
        place: 0,
        header: first_header(alloc)?,
        next: Next::Pieces(0),
    })
}

// A step's answer, what comes next, and the disk's moment.
fn stepped(flush: &mut Flushing, disk: &mut MemDisk) -> (Result<Stepped, DiskFault>, Next, u64)
    requires { FitsDisk flush.old }
    ensures { FitsDisk flush.new }
{
    let answer = flush.step::<MemDisk, Toy>(disk);
    (answer, flush.next, disk.moment())
}

// A header's sync at moment 5 fails, and the flush is made again from its first piece.
#[test]
fn a_fault_sets_the_flush_back(rt: HostRuntime) -> Result<(), Fail> {
    let alloc = rt.alloc();
    let mut disk = MemDisk::new(alloc, vec![in alloc; 5]?, Vec::new(alloc))?;
    let mut flush = flush(alloc)?;
    let steps = [
        (Ok(Stepped::Wrote), Next::Pieces(1), 1),
        (Ok(Stepped::Synced), Next::Header, 3),
        (Ok(Stepped::Out), Next::Finish, 4),
        (Err(DiskFault::Failed), Next::Pieces(0), 5),
        (Ok(Stepped::Wrote), Next::Pieces(1), 6),
        (Ok(Stepped::Synced), Next::Header, 8),
        (Ok(Stepped::Out), Next::Finish, 9),
        (Ok(Stepped::Done), Next::Finish, 11),
    ];
    for step in steps {
        assert_eq!(rt; stepped(&mut flush, &mut disk), step);
    }
    assert_eq!(rt; seen(&mut disk)?, (1, 7));
    Ok(())
}
