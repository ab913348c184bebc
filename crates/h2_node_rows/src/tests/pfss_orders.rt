ghost use Rattle.h2_memory_sets.specs.Seen.{forest_of};
ghost use Rattle.h2_node_rows.specs.VolumeUnderTest.{IsTop};

use super::pfss::Pfss;
use super::pfss_both::{Call, Failure, call_both, call_failing};
use super::pfss_plain::{PlainPfs, PlainPfss};
use std::process::Abort;
use std::test::Fail;

/// The most PFSs of a volume.
const PFSS: u64 = 64;

/// In which order PFSs come or go.
#[derive(Clone, Copy, Debug, PartialEq, Eq)]
enum Order {
    Ascending,
    Descending,
    Scattered,
}

/// PFSs: how far apart their ids are, in which order they come, and in which they go.
#[derive(Clone, Copy, Debug, PartialEq, Eq)]
struct Shape {
    step: u64,
    coming: Order,
    going: Order,
}

const SHAPES: [Shape; 3] = [
    Shape {
        step: 1,
        coming: Order::Ascending,
        going: Order::Scattered,
    },
    Shape {
        step: 1 << 55,
        coming: Order::Descending,
        going: Order::Ascending,
    },
    Shape {
        step: 1 << 20,
        coming: Order::Scattered,
        going: Order::Descending,
    },
];

// The number of the PFS that comes at a step. 64 and 27 have no common divisor, so that each comes once.
fn number_at(order: Order, step: u64) -> u64 {
    let step = step % PFSS;
    match order {
        Order::Ascending => step,
        Order::Descending => PFSS - 1 - step,
        Order::Scattered => (step * 27 + 11) % PFSS,
    }
}

// The name with a number: those in order of the ids are in no order of their bytes.
fn name_of(number: u64) -> [u8; 5] {
    let mixed = number % 100 * 37 % 100;
    [
        b'p',
        b'f',
        b's',
        b'0' + (mixed / 10) as u8,
        b'0' + (mixed % 10) as u8,
    ]
}

// The id of the PFS with a number, which is no smaller than 7.
fn id_of(shape: Shape, number: u64) -> u64 {
    number.saturating_mul(shape.step).saturating_add(7)
}

// The PFS with a number.
fn pfs(shape: Shape, number: u64) -> PlainPfs {
    PlainPfs {
        id: id_of(shape, number),
        name: name_of(number),
    }
}

// A PFS with the number behind all others, and with the name of one of them.
fn same_name(shape: Shape, number: u64) -> PlainPfs {
    PlainPfs {
        id: id_of(shape, PFSS),
        name: name_of(number),
    }
}

// Calls both, where no load fails.
fn call(
    rt: &(impl Abort + AllocGlobal),
    pfss: &mut Pfss,
    plain: &mut PlainPfss,
    call: Call,
) -> Result<(), Fail>
    requires { IsTop (forest_of pfss.old.nodes) pfss.old.root.0 }
    ensures { IsTop (forest_of pfss.new.nodes) pfss.new.root.0 }
{
    assert_eq!(rt; call_both(rt, pfss, plain, call)?, None, "{call:?}");
    Ok(())
}

// All PFSs come, and their loads fail now and then.
fn fill(
    rt: &(impl Abort + AllocGlobal),
    pfss: &mut Pfss,
    plain: &mut PlainPfss,
    shape: Shape,
) -> Result<(), Fail>
    requires { IsTop (forest_of pfss.old.nodes) pfss.old.root.0 }
    ensures { IsTop (forest_of pfss.new.nodes) pfss.new.root.0 }
{
    for step in 0..PFSS {
        let one = pfs(shape, number_at(shape.coming, step));
        if step % 4 == 1 {
            pfss.unload();
        }
        call(rt, pfss, plain, Call::Find(one))?;
        call(rt, pfss, plain, Call::Remove(one, 3))?;
        if step == 20 {
            call_failing(rt, pfss, plain, Call::Add(one), Failure::Disk)?;
        } else {
            call(rt, pfss, plain, Call::Add(one))?;
        }
        call(rt, pfss, plain, Call::Find(one))?;
        let again = same_name(shape, number_at(shape.coming, step));
        call(rt, pfss, plain, Call::Add(again))?;
        call(rt, pfss, plain, Call::Names)?;
    }
    Ok(())
}

// Calls whose loads fail while there are 64 PFSs, on the one with a number and on one that isn't there.
fn failing_calls(shape: Shape, number: u64) -> [(Call, Failure); 2] {
    match shape.coming {
        Order::Ascending => [
            (Call::Add(pfs(shape, PFSS)), Failure::Disk),
            (Call::Remove(pfs(shape, number), 1), Failure::Block),
        ],
        Order::Descending => [
            (Call::Names, Failure::Block),
            (Call::Find(pfs(shape, PFSS)), Failure::Disk),
        ],
        Order::Scattered => [
            (Call::Add(same_name(shape, number)), Failure::Block),
            (Call::Remove(pfs(shape, PFSS), 1), Failure::Disk),
        ],
    }
}

// There are 64 PFSs: no more come, and none goes that is in use.
fn refuse(
    rt: &(impl Abort + AllocGlobal),
    pfss: &mut Pfss,
    plain: &mut PlainPfss,
    shape: Shape,
) -> Result<(), Fail>
    requires { IsTop (forest_of pfss.old.nodes) pfss.old.root.0 }
    ensures { IsTop (forest_of pfss.new.nodes) pfss.new.root.0 }
{
    let one = pfs(shape, 40);
    let other = pfs(shape, PFSS);
    let again = same_name(shape, 40);
    for case in failing_calls(shape, 40) {
        let (one_call, failure) = case;
        // 64 inodes, and the leaves of at least two blocks
        let loads = call_failing(rt, pfss, plain, one_call, failure)?;
        assert!(rt; loads >= 66, "{loads} loads of {one_call:?}");
    }
    for one_call in [
        Call::Find(other),
        Call::Add(other),
        Call::Add(again),
        Call::Remove(other, 1),
        Call::Names,
    ] {
        call(rt, pfss, plain, one_call)?;
    }
    for handles in [1, 2, 77, 65536, u32::MAX] {
        call(rt, pfss, plain, Call::Remove(one, handles))?;
    }
    assert_eq!(rt; plain.pfss.len(), 64);
    Ok(())
}

// All PFSs go, and their loads fail now and then.
fn empty(
    rt: &(impl Abort + AllocGlobal),
    pfss: &mut Pfss,
    plain: &mut PlainPfss,
    shape: Shape,
) -> Result<(), Fail>
    requires { IsTop (forest_of pfss.old.nodes) pfss.old.root.0 }
    ensures { IsTop (forest_of pfss.new.nodes) pfss.new.root.0 }
{
    for step in 0..PFSS {
        let one = pfs(shape, number_at(shape.going, step));
        if step % 4 == 1 {
            pfss.unload();
        }
        if step == 40 {
            call_failing(rt, pfss, plain, Call::Remove(one, 0), Failure::Block)?;
        } else {
            call(rt, pfss, plain, Call::Remove(one, 0))?;
        }
        call(rt, pfss, plain, Call::Find(one))?;
        call(rt, pfss, plain, Call::Remove(one, 0))?;
        call(rt, pfss, plain, Call::Names)?;
    }
    Ok(())
}

#[test]
fn pfss_are_the_plain_list(rt: HostRuntime) -> Result<(), Fail> {
    for shape in SHAPES {
        let mut pfss = Pfss::new(rt.alloc())?;
        let mut plain = PlainPfss::new(rt.alloc());
        fill(&rt, &mut pfss, &mut plain, shape)?;
        refuse(&rt, &mut pfss, &mut plain, shape)?;
        empty(&rt, &mut pfss, &mut plain, shape)?;
        assert_eq!(rt; plain.pfss.len(), 0);
    }
    Ok(())
}
