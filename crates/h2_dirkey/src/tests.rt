use super::*;
use std::test::Fail;

#[test]
fn names_are_good_or_have_a_fault(rt: HostRuntime) {
    let most = [b'A'; 255];
    let more = [b'A'; 256];
    let mut long_slash = [b'A'; 256];
    long_slash[3] = b'/';
    let rows: [(&[u8], Result<(), NameFault>); 13] = [
        (b"", Err(NameFault::Empty)),
        (b"a", Ok(())),
        (b"a b\x1f\x7f\xff", Ok(())),
        (&most, Ok(())),
        (&more, Err(NameFault::Long(256))),
        (&long_slash, Err(NameFault::Long(256))),
        (b"a/\0", Err(NameFault::Slash)),
        (b"\0/", Err(NameFault::Slash)),
        (b"/", Err(NameFault::Slash)),
        (b".\0", Err(NameFault::Zero)),
        (b".", Err(NameFault::Dot)),
        (b"..", Err(NameFault::Dot)),
        (b"...", Ok(())),
    ];
    for (name, want) in rows {
        assert_eq!(rt; check_name(name), want);
    }
}

#[test]
fn names_of_pfss(rt: HostRuntime) {
    let most = [b'Z'; 64];
    let more = [b'Z'; 65];
    let rows: [(&[u8], bool); 9] = [
        (b"ROOT", true),
        (b"az09._-", true),
        (b"..", true),
        (&most, true),
        (&more, false),
        (b"", false),
        (b"a b", false),
        (b"a/b", false),
        (b"[", false),
    ];
    for (name, want) in rows {
        assert_eq!(rt; is_pfs_name(name), want);
    }
}

// The XXH64 of `a` and `abc` is published. The pairs of names that collide, and the key of 255 times `A`,
// come from an implementation in another language.
#[test]
fn keys_have_upper_bits_alone(rt: HostRuntime) {
    let most = [b'A'; 255];
    let more = [b'A'; 256];
    let rows: [(&[u8], Result<u64, NameFault>); 9] = [
        (b"a", Ok(0xD24E_C4F1_A98C_0000)),
        (b"abc", Ok(0xC4BC_2CF5_AD77_0000)),
        (b"n00a433a", Ok(0xB90D_F677_48CF_0000)),
        (b"n034978a", Ok(0xB90D_F677_48CF_0000)),
        (b"n2ebff15", Ok(0xC324_4BED_B128_0000)),
        (b"n351a0a8", Ok(0xC324_4BED_B128_0000)),
        (&most, Ok(0xAD91_1FE2_55F6_0000)),
        (&more, Err(NameFault::Long(256))),
        (b"..", Err(NameFault::Dot)),
    ];
    for (name, want) in rows {
        assert_eq!(rt; key_of(name), want);
    }
}

/// The least key of a directory's entries.
const FIRST: u64 = 1 << 63;

#[test]
fn the_least_free_key_is_picked(rt: HostRuntime) -> Result<(), Fail> {
    let rows: [(&[u64], u64); 7] = [
        (&[], FIRST),
        (&[FIRST, FIRST + 2], FIRST + 1),
        (&[FIRST + 2, FIRST, FIRST + 1], FIRST + 3),
        (&[FIRST + 1], FIRST),
        (&[FIRST, FIRST, 7], FIRST + 1),
        (&[0, FIRST - 1, FIRST + 32768], FIRST),
        (&[u64::MAX, FIRST], FIRST + 1),
    ];
    for (used, want) in rows {
        assert_eq!(rt; pick(FIRST, used), Some(want));
    }
    let mut used = Vec::new(rt.alloc());
    for c in 0..32767u64 {
        used.push(FIRST + c).ok().ok_or("memory")?;
    }
    assert_eq!(rt; pick(FIRST, &used), Some(FIRST + 32767));
    used.push(FIRST + 32767).ok().ok_or("memory")?;
    assert_eq!(rt; pick(FIRST, &used), None);
    Ok(())
}

#[test]
fn a_long_name_has_a_block(rt: HostRuntime) {
    let name = [b'n'; 65];
    let block = name_block(&name);
    let mut want = [0; 1024];
    for at in 0..65usize {
        want[at] = b'n';
    }
    assert_eq!(rt; block.as_slice(), want.as_slice());
    assert!(rt; name_matches(&block, &name));
    assert!(rt; !name_matches(&block, &name[..64]));
    assert!(rt; !name_matches(&block, &[b'n'; 66]));
    assert!(rt; !name_matches(&block, &[b'm'; 65]));
    for at in [0, 64, 65, 1023] {
        let mut spoiled = block;
        spoiled[at] = b'x';
        assert!(rt; !name_matches(&spoiled, &name), "byte {at}");
    }
    let most = [b'n'; 255];
    assert!(rt; name_matches(&name_block(&most), &most));
}
