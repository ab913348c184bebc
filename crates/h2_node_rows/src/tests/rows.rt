use super::under_test::{Volume, shown};
use h2_ref::{Trouble, Why};
use std::test::Fail;

#[test]
fn a_directory_is_planted_replaced_and_sought(rt: HostRuntime) -> Result<(), Fail> {
    let alloc = rt.alloc();
    let mut volume = Volume::new(alloc)?;
    let Some(planted) = volume.plant(3) else {
        return Err(Fail::new("no spare node"));
    };
    assert_eq!(rt; planted, shown(planted.at, 3));
    let replaced = volume.replace(planted.at, 5);
    assert_eq!(rt; replaced, shown(planted.at, 5));
    volume.hold_and_release(planted.at);

    // It is loaded, so no load can fail.
    volume.fail_load(1);
    assert_eq!(rt; volume.seek(alloc), Ok(replaced));

    volume.unload();
    volume.fail_load(1);
    assert_eq!(rt; volume.seek(alloc), Err(Trouble::Failed));
    volume.spoil_load(1);
    let bad = Trouble::Bad {
        place: volume.leaf.place,
        why: Why::Inode,
    };
    assert_eq!(rt; volume.seek(alloc), Err(bad));
    assert_eq!(rt; volume.seek(alloc), Ok(replaced));
    Ok(())
}
