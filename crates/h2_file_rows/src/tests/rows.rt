use super::blocks::{Run, are_blocks, content};
use super::files::{Files, Refused};
use std::test::Fail;

/// The number of the file.
const NUMBER: u64 = 7;

#[test]
fn a_block_is_linked_read_and_cut_off(rt: HostRuntime) -> Result<(), Fail> {
    let alloc = rt.alloc();
    let mut files = Files::new(alloc)?;
    files.add(alloc, NUMBER)?;
    assert_eq!(rt; files.size(alloc, NUMBER), Ok(0));
    assert_eq!(rt; files.read(alloc, NUMBER, 0), Err(Refused::NoBlocks));

    let run = Run {
        first: 3,
        count: 1,
        version: 9,
    };
    let refs = run.refs(alloc)?;
    let refs = refs.as_slice();
    if !are_blocks(refs) {
        return Err(Fail::new("no blocks of a file"));
    }
    assert_eq!(rt; files.link(alloc, NUMBER, refs, 50_000), Ok(()));
    assert_eq!(rt; files.size(alloc, NUMBER), Ok(50_000));
    let block = content(3, 9);
    assert_eq!(rt; block.key, 49_152);
    assert_eq!(rt; files.read(alloc, NUMBER, 49_151), Ok(None));
    assert_eq!(rt; files.read(alloc, NUMBER, 49_152), Ok(Some(block)));
    assert_eq!(rt; files.read(alloc, NUMBER, 65_535), Ok(Some(block)));
    assert_eq!(rt; files.read(alloc, NUMBER, 65_536), Ok(None));

    assert_eq!(rt; files.cut(alloc, NUMBER, 0, None), Ok(()));
    assert_eq!(rt; files.size(alloc, NUMBER), Ok(0));
    assert_eq!(rt; files.read(alloc, NUMBER, 49_152), Ok(None));
    Ok(())
}
