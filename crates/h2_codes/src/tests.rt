use super::*;
use std::test::Fail;

const CODES: [Code; 4] = [Code::Free, Code::Reserved, Code::Staged, Code::Used];

/// The table of bulkfree: a code, whether its chunk is seen, the code after the pass, and how many
/// chunks became staged and free.
const TABLE: [(Code, bool, Code, u32, u32); 8] = [
    (Code::Free, true, Code::Free, 0, 0),
    (Code::Free, false, Code::Free, 0, 0),
    (Code::Reserved, true, Code::Reserved, 0, 0),
    (Code::Reserved, false, Code::Reserved, 0, 0),
    (Code::Staged, true, Code::Used, 0, 0),
    (Code::Staged, false, Code::Free, 0, 1),
    (Code::Used, true, Code::Used, 0, 0),
    (Code::Used, false, Code::Staged, 1, 0),
];

#[test]
fn a_pass_by_its_table(rt: HostRuntime) -> Result<(), Fail> {
    for (code, is_seen, after, staged, freed) in TABLE {
        for c in [0u8, 1, 3, 4, 31, 32, 130, 255] {
            let mut s = Segment::new(true);
            s.set(c, code);
            let mut seen = Seen::new();
            if is_seen {
                seen.mark(c);
            }
            assert_eq!(rt; s.apply(&seen), (staged, freed));
            assert_eq!(rt; s.get(c), after);
            assert_eq!(rt; s.free(), (after == Code::Free) as u32);
            assert_eq!(rt;
                s.count(Code::Reserved),
                255 + (after == Code::Reserved) as u32
            );
        }
    }
    Ok(())
}

#[test]
fn a_pass_over_a_whole_segment(rt: HostRuntime) -> Result<(), Fail> {
    // Chunk c has code c mod 4, and each third chunk is seen.
    let mut s = Segment::new(false);
    let mut seen = Seen::new();
    for c in 0..=255u8 {
        s.set(c, CODES[(c % 4) as usize]);
        if c % 3 == 0 {
            seen.mark(c);
        }
    }
    assert_eq!(rt; s.free(), 64);
    assert_eq!(rt; s.count(Code::Staged), 64);
    assert!(rt; seen.has(255) && !seen.has(254));
    assert_eq!(rt; seen.count(), 86);
    // Of the 64 chunks with c mod 4 = 2, those with c mod 12 = 6 are seen, 21; with c mod 4 = 3, those
    // with c mod 12 = 3, 22.
    assert_eq!(rt; s.apply(&seen), (42, 43));
    assert_eq!(rt; s.free(), 107);
    assert_eq!(rt; s.count(Code::Staged), 42);
    assert_eq!(rt; s.count(Code::Used), 43);
    assert_eq!(rt; s.count(Code::Reserved), 64);
    Ok(())
}

#[test]
fn the_next_free_chunk(rt: HostRuntime) -> Result<(), Fail> {
    let mut s = Segment::new(true);
    assert_eq!(rt; s.next_free(0), None);
    for c in [255u8, 200, 31] {
        s.set(c, Code::Free);
    }
    for (from, want) in [
        (0u16, Some(31u8)),
        (31, Some(31)),
        (32, Some(200)),
        (200, Some(200)),
        (201, Some(255)),
        (255, Some(255)),
        (256, None),
    ] {
        assert_eq!(rt; s.next_free(from), want);
    }
    assert_eq!(rt; Segment::new(false).next_free(0), Some(0));
    Ok(())
}

#[test]
fn two_bits_a_chunk_lower_first(rt: HostRuntime) -> Result<(), Fail> {
    // Chunks 0 to 3 have codes 1, 2, 3 and 0: 1 + 2 * 4 + 3 * 16 = 57. Chunk 255 has code 2: 2 * 64.
    let mut bytes = [0u8; SEGMENT_BYTES];
    bytes[0] = 57;
    bytes[63] = 128;
    let s = Segment::from_bytes(&bytes);
    assert_eq!(rt; s.get(0), Code::Reserved);
    assert_eq!(rt; s.get(1), Code::Staged);
    assert_eq!(rt; s.get(2), Code::Used);
    assert_eq!(rt; s.get(3), Code::Free);
    assert_eq!(rt; s.get(255), Code::Staged);
    assert_eq!(rt; s.free(), 252);
    assert_eq!(rt; s.as_bytes().as_slice(), bytes.as_slice());
    let reserved = Segment::new(true);
    assert_eq!(rt; reserved.as_bytes()[17], 85);
    Ok(())
}
