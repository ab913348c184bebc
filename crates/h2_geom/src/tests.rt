use super::*;
use std::test::Fail;

#[test]
fn geometry_of_the_ends(rt: HostRuntime) -> Result<(), Fail> {
    assert_eq!(rt; Geometry::of(3), None);
    assert_eq!(rt; Geometry::of(513), None);
    let g = Geometry::of(4).ok_or("4 zones")?;
    assert_eq!(rt; g.zones(), 4);
    assert_eq!(rt; g.chunks(), 8192);
    assert_eq!(rt; g.segments(), 32);
    assert_eq!(rt; Geometry::of(512).map(|g| g.chunks()), Some(1_048_576));
    for (chunk, want) in [
        (0, true),
        (255, true),
        (256, false),
        (2047, false),
        (2048, true),
        (8191, false),
    ] {
        assert_eq!(rt; g.reserved(chunk), want);
    }
    Ok(())
}

#[test]
fn places_of_the_map(rt: HostRuntime) -> Result<(), Fail> {
    assert_eq!(rt; header_place(3), 100_663_296);
    assert_eq!(rt; leaf_place(0, 0), 65_536);
    assert_eq!(rt; leaf_place(2, 3), 67_223_552);
    assert_eq!(rt; node_place(1, 8, 1), 268_518_400);
    assert_eq!(rt; node_place(2, 64, 2), 2_147_584_000);
    assert_eq!(rt; chunk_of(4_194_303), 255);
    assert_eq!(rt; chunk_of(4_194_304), 256);
    assert_eq!(rt; chunk_place(256), 4_194_304);
    Ok(())
}
