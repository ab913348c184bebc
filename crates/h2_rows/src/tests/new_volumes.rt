use super::running::{FORMAT_4, FORMATTED_4, FORMATTED_9, bytes_at, expect};
use h2_check::{crc32c, xxh64};
use h2_disk::SureDisk;
use std::alloc::Global;
use std::test::Fail;

// The bytes of an inode's block, and of a leaf of the freemap.
const SMALL_BLOCK_BYTES: usize = 1024;

// The block at a place of the disk.
fn block_at(alloc: Global, disk: &mut SureDisk, place: u64) -> Result<Vec<u8>, Fail> {
    if place > 17_179_868_160 {
        return Err("past the end of the disk")?;
    }
    bytes_at(alloc, disk, place, SMALL_BLOCK_BYTES)
}

// The expected checks come from a separate program, which was written from the tables of the format.
#[test]
fn the_blocks_of_a_new_volume_have_the_worked_bytes(rt: HostRuntime) -> Result<(), Fail> {
    let disk = SureDisk::new(rt.alloc())?;
    let mut disk = expect(&rt, &FORMAT_4, disk, 0, FORMATTED_4)?;
    let inodes = [
        (4_194_304, 0x2542_B341_1EC6_4278),
        (4_195_328, 0x31CD_3A30_615D_458A),
    ];
    for (place, check) in inodes {
        let block = bytes_at(rt.alloc(), &mut disk, place, SMALL_BLOCK_BYTES)?;
        assert_eq!(rt; xxh64(&block), check, "place {place}");
    }
    let leaves = [
        (65_536, 0x7059_E0DE),
        (33_619_968, 0x6592_9238),
        (67_174_400, 0x6592_9238),
        (100_728_832, 0x6592_9238),
    ];
    for (place, check) in leaves {
        let block = bytes_at(rt.alloc(), &mut disk, place, SMALL_BLOCK_BYTES)?;
        assert_eq!(rt; crc32c(&block), check, "place {place}");
    }
    // the header's own check, at the end of its block
    let bytes = bytes_at(rt.alloc(), &mut disk, 65_532, 4)?;
    assert_eq!(rt; bytes.as_slice(), 0x8825_13D3_u32.to_le_bytes().as_slice());
    Ok(())
}

// The words of a volume, its line, the check of its header, and places of blocks of its freemap with their checks:
// of leaves, of nodes of level 1 behind their place, and of level 2 behind those.
const MAPS: [(&str, &str, u32, [(u64, u32); 5]); 2] = [
    (
        "9",
        FORMATTED_9,
        0x56C8_B82A,
        [
            (65_536, 0x7059_E0DE),
            (33_619_968, 0x6592_9238),
            (268_500_992, 0x6592_9238),
            (66_560, 0x664F_B44B),
            (268_502_016, 0xF4C7_10AB),
        ],
    ),
    (
        "512",
        "formatted zones 512 chunks 1048576 reserved 131072 free 917503\n",
        0x89FD_30C7,
        [
            (17_146_380_288, 0x6592_9238),
            (66_560, 0x664F_B44B),
            (16_911_500_288, 0x8178_EF29),
            (67_584, 0x4C3D_6895),
            (15_032_453_120, 0x61EE_945F),
        ],
    ),
];

#[test]
fn the_nodes_of_larger_volumes_have_the_worked_bytes(rt: HostRuntime) -> Result<(), Fail> {
    for (zones, line, header, blocks) in MAPS {
        let disk = SureDisk::new(rt.alloc())?;
        let mut disk = expect(&rt, &["format", "IMG", zones], disk, 0, line)?;
        for (place, check) in blocks {
            let block = block_at(rt.alloc(), &mut disk, place)?;
            assert_eq!(rt; crc32c(&block), check, "place {place}");
        }
        let bytes = bytes_at(rt.alloc(), &mut disk, 65_532, 4)?;
        assert_eq!(rt; bytes.as_slice(), header.to_le_bytes().as_slice());
    }
    Ok(())
}
