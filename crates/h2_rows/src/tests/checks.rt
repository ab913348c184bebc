use h2_check::{crc32c, xxh64};

#[test]
fn checks_give_the_published_values(rt: HostRuntime) {
    assert_eq!(rt; crc32c(b"123456789"), 0xE306_9283);
    assert_eq!(rt; xxh64(b""), 0xEF46_DB37_51D8_E999);
}
