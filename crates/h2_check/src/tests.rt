use super::*;
use std::test::Fail;

/// The length of the longest sample, in bytes.
const SAMPLE_BYTES: usize = 1000;

// The byte at each place is 167 times the place, and 13, modulo 256.
fn sample() -> [u8; SAMPLE_BYTES] {
    let mut bytes = [0u8; SAMPLE_BYTES];
    let mut next = 13u8;
    for byte in bytes.iter_mut() {
        *byte = next;
        next = next.wrapping_add(167);
    }
    bytes
}

#[test]
fn published_values(rt: HostRuntime) {
    assert_eq!(rt; crc32c(b"123456789"), 0xE306_9283);
    // of RFC 3720, the appendix on CRC examples
    assert_eq!(rt; crc32c(&[0x00; 32]), 0x8A91_36AA);
    assert_eq!(rt; crc32c(&[0xFF; 32]), 0x62A8_AB43);
    assert_eq!(rt; xxh64(b""), 0xEF46_DB37_51D8_E999);
    assert_eq!(rt; xxh64(b"a"), 0xD24E_C4F1_A98C_6E5B);
    assert_eq!(rt; xxh64(b"abc"), 0x44BC_2CF5_AD77_0999);
    assert_eq!(rt;
        xxh64(b"Nobody inspects the spammish repetition"),
        0xFBCE_A83C_8A37_8BF1
    );
}

// The values are of an independent implementation: CRC-32C by long division of the whole message,
// XXH64 written from the specification in another language.
#[test]
fn each_length_of_the_last_step(rt: HostRuntime) -> Result<(), Fail> {
    let bytes = sample();
    for (length, crc, xxh) in [
        (0, 0x0000_0000, 0xEF46_DB37_51D8_E999),
        (1, 0xED55_1F82, 0x2078_E1AD_38AD_738B),
        (3, 0x5E01_5395, 0x634D_95FC_01A1_89CD),
        (4, 0x1441_CAFE, 0xEED3_4090_8A1A_C6C6),
        (7, 0x49B0_575B, 0x0DA4_9362_1D6D_C898),
        (8, 0xA448_D1DE, 0x76F9_16C7_BB52_3126),
        (31, 0x9664_8041, 0x65C5_FEB0_1DA7_464D),
        (32, 0x8621_533A, 0x7665_C921_C9BF_2EC7),
        (33, 0x55E2_F742, 0xB5A9_D9EF_259A_E821),
        (63, 0x4D20_F47E, 0xB028_9CD9_3240_34F0),
        (64, 0x89CC_F1B9, 0xFFF2_525C_99BF_2005),
        (100, 0x806E_2952, 0x74E5_02DB_362E_FD4C),
        (SAMPLE_BYTES, 0x3084_44C2, 0x6264_43C8_029D_0542),
    ] {
        let part = bytes.get(..length).ok_or("a length past the sample")?;
        assert_eq!(rt; crc32c(part), crc, "of {length} bytes");
        assert_eq!(rt; xxh64(part), xxh, "of {length} bytes");
    }
    Ok(())
}
