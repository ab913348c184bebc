ghost use Rattle.std.specs.Prelude.{IfOk};
ghost use Rattle.h2_header.specs.Header.{IsHeader};

use super::running::{FORMATTED_4, FORMATTED_9, bytes_at, expect};
use h2_disk::SureDisk;
use h2_freeleaf::read_map;
use h2_header::{HEADER_BYTES, Header, read_from};
use std::test::Fail;

// How many zones, the line, and the chunks that are free by the freemap on disk.
const VOLUMES: [(&str, &str, u64); 3] = [
    ("4", FORMATTED_4, 7167),
    ("9", FORMATTED_9, 16127),
    (
        "512",
        "formatted zones 512 chunks 1048576 reserved 131072 free 917503\n",
        917_503,
    ),
];

// The header that the block of the first slot has.
fn header_of(block: &[u8]) -> Result<Header, Fail>
    ensures { IfOk result IsHeader }
{
    if block.len() != HEADER_BYTES {
        return Err("no block")?;
    }
    match read_from(block, 0) {
        Ok(header) => Ok(header),
        Err(_) => Err("no header")?,
    }
}

#[test]
fn the_freemap_of_a_new_volume_is_read_back(rt: HostRuntime) -> Result<(), Fail> {
    for (zones, line, free) in VOLUMES {
        let disk = SureDisk::new(rt.alloc())?;
        let mut disk = expect(&rt, &["format", "IMG", zones], disk, 0, line)?;
        let block = bytes_at(rt.alloc(), &mut disk, 0, HEADER_BYTES)?;
        let header = header_of(&block)?;
        let Ok(map) = read_map(rt.alloc(), &mut disk, &header) else {
            return Err("no freemap")?;
        };
        assert_eq!(rt; map.free(), free, "{zones} zones");
    }
    Ok(())
}
