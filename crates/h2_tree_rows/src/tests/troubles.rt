ghost use Rattle.std.specs.Prelude.{IfOk, OnOk};
ghost use Rattle.h2_tree_rows.specs.TreeUnderTest.{IsTree};

use super::plain_list::PlainList;
use super::under_test::Tree;
use h2_memory_sets::KeyClass;
use h2_ref::{Ref, Trouble, Why};
use std::process::Abort;
use std::test::Fail;

/// How many leaves the tree has, and how far apart: enough for blocks below blocks.
const LEAVES: u64 = 200;

const STEP: u64 = 1 << 40;

/// How a load fails.
#[derive(Clone, Copy, Debug)]
enum Failure {
    Disk,
    Block,
}

/// A call that may need loads.
#[derive(Clone, Copy)]
enum Call {
    Lookup(u64),
    Insert(u64),
    Remove(u64),
    Range,
}

// One call on a tree and on the list, where it succeeds.
fn call_both(
    rt: &(impl Abort + AllocGlobal),
    tree: &mut Tree,
    list: &mut PlainList,
    call: Call,
) -> Result<Result<(), Trouble>, Fail>
    requires { IsTree tree.old.sets tree.old.root.0 tree.old.keys tree.old.leaf_bits }
    ensures { OnOk result (IsTree tree.new.sets tree.new.root.0 tree.new.keys tree.new.leaf_bits) }
{
    let alloc = rt.alloc();
    match call {
        Call::Lookup(key) => match tree.lookup(alloc, key) {
            Ok(found) => assert_eq!(rt; found, list.find(key), "key {key}"),
            Err(trouble) => return Ok(Err(trouble)),
        },
        Call::Insert(key) => {
            let Some(leaf) = tree.leaf(key, 7) else {
                return Err(Fail::new("no leaf of the tree"));
            };
            match tree.insert(alloc, leaf) {
                Ok(old) => assert_eq!(rt; old, list.put(leaf)?, "key {key}"),
                Err(trouble) => return Ok(Err(trouble)),
            }
        }
        Call::Remove(key) => match tree.remove(alloc, key) {
            Ok(old) => assert_eq!(rt; old, list.take(key), "key {key}"),
            Err(trouble) => return Ok(Err(trouble)),
        },
        Call::Range => match tree.range(alloc, 0, u64::MAX) {
            Ok(found) => assert_eq!(rt; found.as_slice(), list.leaves.as_slice()),
            Err(trouble) => return Ok(Err(trouble)),
        },
    }
    Ok(Ok(()))
}

// The key of a leaf.
fn key_at(i: u64) -> u64 {
    i.saturating_mul(STEP)
}

// A tree and its list, with leaves at every step.
fn filled(rt: &(impl Abort + AllocGlobal)) -> Result<(Tree, PlainList), Fail>
    ensures { IfOk result (λ p. let t = p.0 in IsTree t.sets t.root.0 t.keys t.leaf_bits) }
{
    let alloc = rt.alloc();
    let mut tree = Tree::new(alloc, KeyClass::Low, 0)?;
    let mut list = PlainList::new(alloc);
    for i in 0..LEAVES {
        let Some(leaf) = tree.leaf(key_at(i), 1) else {
            return Err(Fail::new("no leaf of the tree"));
        };
        tree.insert(alloc, leaf)?;
        list.put(leaf)?;
    }
    Ok((tree, list))
}

// Lets a load from now on fail; none where it is 0.
fn fail(tree: &mut Tree, failure: Failure, which: u64)
    requires { IsTree tree.old.sets tree.old.root.0 tree.old.keys tree.old.leaf_bits }
    ensures { IsTree tree.new.sets tree.new.root.0 tree.new.keys tree.new.leaf_bits }
{
    match failure {
        Failure::Disk => tree.fail_load(which),
        Failure::Block => tree.spoil_load(which),
    }
}

// Whether this is the trouble that such a failure makes.
fn is_caused(trouble: Trouble, failure: Failure) -> bool {
    match failure {
        Failure::Disk => trouble == Trouble::Failed,
        Failure::Block => match trouble {
            Trouble::Bad { place: _, why } => why == Why::Shape,
            Trouble::Failed => false,
            Trouble::NoMemory => false,
        },
    }
}

// Each load of a call fails in its turn, and then the list is as before. Once none fails, the call succeeds. How many
// loads it took.
fn loads_of(rt: &(impl Abort + AllocGlobal), call: Call, failure: Failure) -> Result<u64, Fail> {
    let (mut tree, mut list) = filled(rt)?;
    for n in 0..100u64 {
        tree.unload(0);
        fail(&mut tree, failure, n + 1);
        let done = call_both(rt, &mut tree, &mut list, call)?;
        fail(&mut tree, failure, 0);
        call_both(rt, &mut tree, &mut list, Call::Range)?
            .ok()
            .ok_or("range")?;
        match done {
            Ok(()) => return Ok(n),
            Err(trouble) => assert!(rt; is_caused(trouble, failure), "load {n}, {failure:?}"),
        }
    }
    Err(Fail::new("more loads than the tree has blocks"))
}

#[test]
fn each_load_may_fail(rt: HostRuntime) -> Result<(), Fail> {
    for failure in [Failure::Disk, Failure::Block] {
        assert!(rt; loads_of(&rt, Call::Range, failure)? >= 7);
        for i in 0..10u64 {
            let key = (20 * i + 3) * STEP;
            assert!(rt;
                loads_of(&rt, Call::Lookup(key), failure)? >= 1,
                "key {key}"
            );
            assert!(rt;
                loads_of(&rt, Call::Insert(key), failure)? >= 1,
                "key {key}"
            );
            assert!(rt;
                loads_of(&rt, Call::Insert(key + 1), failure)? >= 1,
                "key {key}"
            );
            assert!(rt;
                loads_of(&rt, Call::Remove(key), failure)? >= 1,
                "key {key}"
            );
        }
    }
    Ok(())
}

// Adds a leaf where no node is spare: after a refusal the list is as before, and a second try succeeds. Whether it was
// refused.
fn insert_unspared(
    rt: &(impl Abort + AllocGlobal),
    tree: &mut Tree,
    list: &mut PlainList,
    key: u64,
) -> Result<bool, Fail>
    requires { IsTree tree.old.sets tree.old.root.0 tree.old.keys tree.old.leaf_bits }
    ensures { OnOk result (IsTree tree.new.sets tree.new.root.0 tree.new.keys tree.new.leaf_bits) }
{
    tree.refuse_spare(1);
    let first = call_both(rt, tree, list, Call::Insert(key))?;
    tree.refuse_spare(0);
    assert_eq!(rt;
        call_both(rt, tree, list, Call::Range)?,
        Ok(()),
        "key {key}"
    );
    if first == Ok(()) {
        return Ok(false);
    }
    assert_eq!(rt; first, Err(Trouble::NoMemory), "key {key}");
    assert_eq!(rt; list.find(key), None, "key {key}");
    assert_eq!(rt;
        call_both(rt, tree, list, Call::Insert(key))?,
        Ok(()),
        "key {key}"
    );
    assert_eq!(rt;
        call_both(rt, tree, list, Call::Range)?,
        Ok(()),
        "key {key}"
    );
    Ok(true)
}

#[test]
fn each_split_needs_a_spare_node(rt: HostRuntime) -> Result<(), Fail> {
    let (mut tree, mut list) = filled(&rt)?;
    let mut refused = 0u64;
    for i in 0..LEAVES {
        let key = key_at(i).saturating_add(1);
        if insert_unspared(&rt, &mut tree, &mut list, key)? {
            refused = refused.saturating_add(1);
        }
    }
    assert!(rt; refused >= 4, "{refused} splits");
    assert_eq!(rt; list.leaves.len(), 400);
    Ok(())
}

#[test]
fn a_split_needs_a_spare_node(rt: HostRuntime) -> Result<(), Fail> {
    let alloc = rt.alloc();
    let mut tree = Tree::new(alloc, KeyClass::Low, 0)?;
    let mut list = PlainList::new(alloc);
    for key in 0..4u64 {
        tree.refuse_spare(1);
        let done = call_both(&rt, &mut tree, &mut list, Call::Insert(key))?;
        assert_eq!(rt; done, Ok(()), "key {key}");
    }
    tree.refuse_spare(1);
    let done = call_both(&rt, &mut tree, &mut list, Call::Insert(4))?;
    assert_eq!(rt; done, Err(Trouble::NoMemory));
    assert_eq!(rt; list.leaves.len(), 4);
    for call in [Call::Range, Call::Insert(4), Call::Range] {
        let done = call_both(&rt, &mut tree, &mut list, call)?;
        assert_eq!(rt; done, Ok(()));
    }
    assert_eq!(rt; list.leaves.len(), 5);
    Ok(())
}
