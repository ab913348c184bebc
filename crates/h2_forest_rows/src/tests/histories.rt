use super::running::{replies_over, run};
use super::scripts::{REFUSALS, SNAPSHOT};
use h2_command::{History, Item, Mark};
use h2_forest::{Forest, Replay, frozen_forest, replay};
use std::alloc::Global;
use std::test::Fail;

// What a replay of a history from a fresh forest tells.
fn told(alloc: Global, history: &History) -> Result<Replay, Fail> {
    if !history.is_lawful() {
        return Err("not lawful".into());
    }
    if history.items().len() >= 4_294_967_296 {
        return Err("too long".into());
    }
    let fresh = Forest::fresh(alloc).ok().ok_or("memory")?;
    Ok(replay(alloc, fresh, history).ok().ok_or("memory")?)
}

// What a replay of a script's history tells, with a wrong reply at a place.
fn told_of(alloc: Global, lines: &str, changed: Option<usize>) -> Result<Replay, Fail> {
    let running = run(alloc, lines, changed)?;
    told(alloc, &running.history)
}

#[test]
fn a_changed_reply_is_found(rt: HostRuntime) -> Result<(), Fail> {
    let alloc = rt.alloc();
    for (lines, count) in [(REFUSALS, 15u32), (SNAPSHOT, 10u32)] {
        assert_eq!(rt; told_of(alloc, lines, None)?, Replay::Same);
        for place in 0..count {
            let told = told_of(alloc, lines, Some(place as usize))?;
            assert_eq!(rt; told, Replay::Differs(place));
        }
    }
    Ok(())
}

// What `ls` tells of the forest that was frozen for a header, if one was.
fn listed_at(alloc: Global, history: &History, number: u64) -> Result<Option<String>, Fail> {
    if !history.is_lawful() {
        return Err("not lawful".into());
    }
    let fresh = Forest::fresh(alloc).ok().ok_or("memory")?;
    let frozen = frozen_forest(alloc, 1, fresh, history, number)
        .ok()
        .ok_or("memory")?;
    let Some(frozen) = frozen else {
        return Ok(None);
    };
    Ok(Some(replies_over(alloc, frozen, "0 ls ROOT:/")?))
}

fn freeze(number: u64) -> Item {
    Item::Mark(Mark::Freeze { number, moment: 0 })
}

#[test]
fn a_frozen_forest_has_what_came_before(rt: HostRuntime) -> Result<(), Fail> {
    let alloc = rt.alloc();
    let mut running = run(alloc, "0 create ROOT:/a", None)?;
    running.history.push(freeze(2)).ok().ok_or("memory")?;
    running.run(alloc, "0 create ROOT:/b")?;
    running.history.push(freeze(3)).ok().ok_or("memory")?;
    running.run(alloc, "0 rm ROOT:/a")?;
    for (number, want) in [
        (1, "0 0 list 0\n"),
        (2, "0 0 list 1 a\n"),
        (3, "0 0 list 2 a b\n"),
    ] {
        let told = listed_at(alloc, &running.history, number)?.ok_or("not frozen")?;
        assert_eq!(rt; told.as_str(), want);
    }
    assert!(rt; listed_at(alloc, &running.history, 4)?.is_none());
    Ok(())
}

#[test]
fn a_clean_forest_has_no_handle(rt: HostRuntime) -> Result<(), Fail> {
    let alloc = rt.alloc();
    let running = run(
        alloc,
        "0 create ROOT:/f\n0 create ROOT:/g\n0 open ROOT:/f\n0 rm ROOT:/f",
        None,
    )?;
    let clean = running.forest.cleaned(alloc).ok().ok_or("memory")?;
    let told = replies_over(
        alloc,
        clean,
        "0 read 0 0 1\n0 ls ROOT:/\n0 create ROOT:/h\n0 stat ROOT:/h",
    )?;
    assert_eq!(rt;
        told.as_str(),
        "0 0 no-handle\n0 1 list 1 g\n0 2 ok\n0 3 file inode 4 links 1 size 0\n"
    );
    Ok(())
}

// Whether ROOT has the inodes 2 and 3: those of the first and the second file that was created.
fn has_first_files(forest: &Forest) -> Result<(bool, bool), Fail> {
    let root = forest.pfss().first().ok_or("no ROOT")?;
    Ok((root.table.node(2).is_some(), root.table.node(3).is_some()))
}

// A trim leaves a file without a link while a handle stands for it, and its bytes. After the close it stays until
// the next trim, which takes it out and leaves the file that has a link.
#[test]
fn a_trim_keeps_what_a_handle_names(rt: HostRuntime) -> Result<(), Fail> {
    let alloc = rt.alloc();
    let mut running = run(
        alloc,
        "0 create ROOT:/f\n0 create ROOT:/g\n0 open ROOT:/f\n0 write 0 0 x:6869\n0 rm ROOT:/f",
        None,
    )?;
    running.forest.trim(alloc).ok().ok_or("memory")?;
    assert_eq!(rt; has_first_files(&running.forest)?, (true, true));
    running.run(alloc, "0 read 0 0 10\n0 ls ROOT:/\n0 close 0")?;
    assert_eq!(rt; has_first_files(&running.forest)?, (true, true));
    running.forest.trim(alloc).ok().ok_or("memory")?;
    assert_eq!(rt; has_first_files(&running.forest)?, (false, true));
    running.run(alloc, "0 stat ROOT:/g\n0 read 0 0 10")?;
    let told = running.told(alloc)?;
    assert_eq!(rt;
        told.as_str(),
        "0 0 ok\n0 1 ok\n0 2 handle 0\n0 3 wrote 2\n0 4 ok\n0 5 data 2 6869\n0 6 list 1 g\n0 7 ok\n0 8 file inode 3 links 1 size 0\n0 9 no-handle\n"
    );
    Ok(())
}

// Places of a history that are reserved are there, and an item beside them keeps them.
#[test]
fn reserved_places_are_kept(rt: HostRuntime) -> Result<(), Fail> {
    let mut history = History::new(rt.alloc());
    history.reserve(2).ok().ok_or("memory")?;
    history.push(freeze(1)).ok().ok_or("memory")?;
    history.push_spare(freeze(2));
    history.push_spare(freeze(3));
    assert_eq!(rt; history.items().len(), 3);
    Ok(())
}
