ghost use Rattle.std.specs.Prelude.{OnOk};
ghost use Rattle.h2_tree_rows.specs.TreeUnderTest.{IsTree};

use super::plain_list::PlainList;
use super::under_test::Tree;
use h2_memory_sets::KeyClass;
use std::process::Abort;
use std::test::Fail;

/// How many leaves a tree gets.
const LEAVES: u64 = 256;

/// Where the keys of a tree's leaves lie, and how long their ranges are.
#[derive(Clone, Copy)]
struct Shape {
    keys: KeyClass,
    leaf_bits: u8,
    first: u64,
    step: u64,
}

// Numbers of inodes side by side and far apart, blocks of contents, and keys of names.
const SHAPES: [Shape; 4] = [
    Shape {
        keys: KeyClass::Low,
        leaf_bits: 0,
        first: 0,
        step: 1,
    },
    Shape {
        keys: KeyClass::Low,
        leaf_bits: 0,
        first: 3,
        step: 1 << 53,
    },
    Shape {
        keys: KeyClass::Low,
        leaf_bits: 14,
        first: 0,
        step: 1 << 14,
    },
    Shape {
        keys: KeyClass::High,
        leaf_bits: 0,
        first: 1 << 63,
        step: 1 << 15,
    },
];

/// In which order leaves come.
#[derive(Clone, Copy)]
enum Order {
    Ascending,
    Descending,
    BitReversed,
    Scattered,
}

const ORDERS: [(Order, Order); 4] = [
    (Order::Ascending, Order::Scattered),
    (Order::Descending, Order::Ascending),
    (Order::BitReversed, Order::Descending),
    (Order::Scattered, Order::BitReversed),
];

// The number of the leaf that comes at a step.
fn leaf_at(order: Order, step: u64) -> u64 {
    let step = step % LEAVES;
    match order {
        Order::Ascending => step,
        Order::Descending => LEAVES - 1 - step,
        Order::BitReversed => u64::from((step as u8).reverse_bits()),
        Order::Scattered => scattered(step),
    }
}

// The member at a step of the sequence in which (77 x + 13) mod 256 comes after x. All residues come once, since 77 is
// one more than a multiple of 4 and 13 is odd.
fn scattered(step: u64) -> u64 {
    let mut x = 0u64;
    for _ in 0..step {
        x = (x % LEAVES * 77 + 13) % LEAVES;
    }
    x
}

fn key_of(shape: Shape, leaf: u64) -> u64 {
    shape.first.saturating_add(leaf.saturating_mul(shape.step))
}

// Adds or replaces a leaf in both, and compares what they say.
fn insert_both(
    rt: &(impl Abort + AllocGlobal),
    tree: &mut Tree,
    list: &mut PlainList,
    key: u64,
    version: u64,
) -> Result<(), Fail>
    requires { IsTree tree.old.sets tree.old.root.0 tree.old.keys tree.old.leaf_bits }
    ensures { OnOk result (IsTree tree.new.sets tree.new.root.0 tree.new.keys tree.new.leaf_bits) }
{
    let alloc = rt.alloc();
    let Some(leaf) = tree.leaf(key, version) else {
        return Err(Fail::new("no leaf of the tree"));
    };
    let room = tree.sets.room();
    let spare = tree.sets.spare();
    let old = tree.insert(alloc, leaf)?;
    assert_eq!(rt; old, list.put(leaf)?, "key {key}");
    assert!(rt;
        room.saturating_sub(tree.sets.room()) <= 63,
        "room at {key}"
    );
    assert!(rt;
        spare.saturating_sub(tree.sets.spare()) <= 1,
        "spare at {key}"
    );
    assert_eq!(rt; tree.lookup(alloc, key)?, Some(leaf), "key {key}");
    let next = key.saturating_add(1);
    assert_eq!(rt; tree.lookup(alloc, next)?, list.find(next), "key {next}");
    Ok(())
}

// Takes a leaf out of both, and compares what they say.
fn remove_both(
    rt: &(impl Abort + AllocGlobal),
    tree: &mut Tree,
    list: &mut PlainList,
    key: u64,
) -> Result<(), Fail>
    requires { IsTree tree.old.sets tree.old.root.0 tree.old.keys tree.old.leaf_bits }
    ensures { OnOk result (IsTree tree.new.sets tree.new.root.0 tree.new.keys tree.new.leaf_bits) }
{
    let alloc = rt.alloc();
    let room = tree.sets.room();
    let spare = tree.sets.spare();
    let old = tree.remove(alloc, key)?;
    assert!(rt; old.is_some(), "key {key}");
    assert_eq!(rt; old, list.take(key), "key {key}");
    assert!(rt;
        room.saturating_sub(tree.sets.room()) <= 62,
        "room at {key}"
    );
    assert!(rt; spare <= tree.sets.spare(), "spare at {key}");
    assert_eq!(rt; tree.remove(alloc, key)?, None, "key {key}");
    assert_eq!(rt; tree.lookup(alloc, key)?, list.find(key), "key {key}");
    Ok(())
}

// The leaves of both with keys from one to another.
fn compare(
    rt: &(impl Abort + AllocGlobal),
    tree: &mut Tree,
    list: &PlainList,
    from: u64,
    to: u64,
) -> Result<(), Fail>
    requires { IsTree tree.old.sets tree.old.root.0 tree.old.keys tree.old.leaf_bits }
    ensures { OnOk result (IsTree tree.new.sets tree.new.root.0 tree.new.keys tree.new.leaf_bits) }
{
    let alloc = rt.alloc();
    let found = tree.range(alloc, from, to)?;
    let want = list.between(alloc, from, to)?;
    assert_eq!(rt; found.as_slice(), want.as_slice(), "from {from} to {to}");
    Ok(())
}

fn fill(
    rt: &(impl Abort + AllocGlobal),
    tree: &mut Tree,
    list: &mut PlainList,
    shape: Shape,
    order: Order,
) -> Result<(), Fail>
    requires { IsTree tree.old.sets tree.old.root.0 tree.old.keys tree.old.leaf_bits }
    ensures { OnOk result (IsTree tree.new.sets tree.new.root.0 tree.new.keys tree.new.leaf_bits) }
{
    for step in 0..LEAVES {
        let key = key_of(shape, leaf_at(order, step));
        insert_both(rt, tree, list, key, 2 * step + 1)?;
        if step % 16 == 7 {
            tree.unload(key);
        }
        if step % 32 == 9 {
            compare(rt, tree, list, key, u64::MAX)?;
            tree.unload(0);
            insert_both(rt, tree, list, key, 2 * step + 2)?;
        }
    }
    compare(rt, tree, list, 0, u64::MAX)
}

fn empty(
    rt: &(impl Abort + AllocGlobal),
    tree: &mut Tree,
    list: &mut PlainList,
    shape: Shape,
    order: Order,
) -> Result<(), Fail>
    requires { IsTree tree.old.sets tree.old.root.0 tree.old.keys tree.old.leaf_bits }
    ensures { OnOk result (IsTree tree.new.sets tree.new.root.0 tree.new.keys tree.new.leaf_bits) }
{
    for step in 0..LEAVES {
        let key = key_of(shape, leaf_at(order, step));
        remove_both(rt, tree, list, key)?;
        if step % 16 == 3 {
            tree.unload(key);
        }
        if step % 32 == 9 {
            compare(rt, tree, list, 0, key)?;
            tree.unload(0);
        }
    }
    compare(rt, tree, list, 0, u64::MAX)
}

// A tree that gets its leaves in one order and loses them in another.
fn fill_and_empty(
    rt: &(impl Abort + AllocGlobal),
    shape: Shape,
    orders: (Order, Order),
) -> Result<(), Fail> {
    let (coming, going) = orders;
    let mut tree = Tree::new(rt.alloc(), shape.keys, shape.leaf_bits)?;
    let mut list = PlainList::new(rt.alloc());
    fill(rt, &mut tree, &mut list, shape, coming)?;
    assert_eq!(rt; list.leaves.len(), 256);
    empty(rt, &mut tree, &mut list, shape, going)?;
    assert_eq!(rt; list.leaves.len(), 0);
    Ok(())
}

#[test]
fn a_tree_is_the_sorted_list(rt: HostRuntime) -> Result<(), Fail> {
    for shape in SHAPES {
        for orders in ORDERS {
            fill_and_empty(&rt, shape, orders)?;
        }
    }
    Ok(())
}
