use super::changing::NewEntry;
use super::directory::Directory;
use h2_dir::DirFault;
use h2_num::{Name, Names, NoMemory};
use h2_ref::Dirent;
use std::alloc::Global;
use std::test::Fail;

/// The least key of the name `a`, whose XXH64 is 0xd24ec4f1a98c6e5b: bit 63 set, and the low 15 bits left out.
const KEY_OF_A: u64 = 0xd24e_c4f1_a98c_0000;

// The path with these names, of one byte each.
fn path(alloc: Global, bytes: &[u8]) -> Result<Names, NoMemory> {
    let mut names = Names::new(alloc);
    for byte in bytes {
        names.push(Name::from_slice(alloc, &[*byte])?)?;
    }
    Ok(names)
}

// What the entry of a name of one byte says.
fn entry(name: u8, number: u64, target: u8) -> Dirent {
    let mut area = [0; 64];
    area[0] = name;
    Dirent {
        number,
        len: 1,
        target,
        name: area,
    }
}

#[test]
fn an_entry_is_added_found_listed_walked_to_and_removed(rt: HostRuntime) -> Result<(), Fail> {
    let alloc = rt.alloc();
    let mut dir = Directory::new(alloc)?;
    assert_eq!(rt; dir.find(alloc, b"a"), Err(DirFault::NoEntry));
    assert_eq!(rt; dir.spot(alloc, b"a"), Ok(KEY_OF_A));
    let a = NewEntry {
        name: b"a",
        block: None,
        number: 7,
        target: 2,
    };
    assert_eq!(rt; dir.add(alloc, a), Ok(KEY_OF_A));
    assert_eq!(rt; dir.find(alloc, b"a"), Ok((KEY_OF_A, entry(b'a', 7, 2))));
    assert_eq!(rt; dir.spot(alloc, b"a"), Err(DirFault::Exists));

    // The directory names itself.
    let d = NewEntry {
        name: b"d",
        block: None,
        number: 1,
        target: 1,
    };
    assert!(rt; dir.add(alloc, d).is_ok());
    let Ok(listed) = dir.list(alloc) else {
        return Err(Fail::new("no list"));
    };
    assert_eq!(rt; listed.len(), 2);
    assert_eq!(rt; listed[0].0.as_slice(), b"a".as_slice());
    assert_eq!(rt; listed[0].1, 7);
    assert_eq!(rt; listed[1].0.as_slice(), b"d".as_slice());
    assert_eq!(rt; listed[1].1, 1);

    let walks: [(&[u8], Result<u64, DirFault>); 7] = [
        (b"", Ok(1)),
        (b"a", Ok(7)),
        (b"d", Ok(1)),
        (b"dda", Ok(7)),
        (b"b", Err(DirFault::NoEntry)),
        (b"db", Err(DirFault::NoEntry)),
        // The PFS has no inode 7.
        (b"ab", Err(DirFault::NotDir)),
    ];
    for (bytes, want) in walks {
        let names = path(alloc, bytes)?;
        assert_eq!(rt; dir.walk(alloc, &names), want, "path {bytes:?}");
    }

    assert_eq!(rt; dir.remove(alloc, b"a"), Ok((KEY_OF_A, entry(b'a', 7, 2))));
    assert_eq!(rt; dir.find(alloc, b"a"), Err(DirFault::NoEntry));
    assert_eq!(rt; dir.spot(alloc, b"a"), Ok(KEY_OF_A));
    Ok(())
}
