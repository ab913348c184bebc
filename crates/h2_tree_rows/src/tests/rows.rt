use super::under_test::Tree;
use h2_memory_sets::KeyClass;
use std::test::Fail;

#[test]
fn five_leaves_in_a_root_of_four(rt: HostRuntime) -> Result<(), Fail> {
    let alloc = rt.alloc();
    let mut tree = Tree::new(alloc, KeyClass::Low, 0)?;
    for key in 0..5u64 {
        let Some(leaf) = tree.leaf(key, key + 1) else {
            return Err(Fail::new("no leaf of the tree"));
        };
        assert_eq!(rt; tree.insert(alloc, leaf)?, None, "key {key}");
    }
    assert_eq!(rt; tree.lookup(alloc, 3)?, tree.leaf(3, 4));
    let found = tree.range(alloc, 0, 9)?;
    assert_eq!(rt; found.len(), 5);
    assert_eq!(rt; tree.remove(alloc, 9)?, None);
    Ok(())
}
