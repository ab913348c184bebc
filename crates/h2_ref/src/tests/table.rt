use crate::methods::{Method, method_row};
use crate::reference::Kind;
use crate::rules::{has_keybits, is_method_of, method_in};
use crate::table::{Methods, kind_of, row_of};
use bitflags::Flags;
use std::test::Fail;

// A row of the format's table, by hand.
struct Worked {
    kind: Kind,
    number: u8,
    method: u8,
    flags: u8,
    radix: u8,
    // the ranges of keybits, of which the second may be the first
    keybits: [(u8, u8); 2],
    keys: (u64, u64),
    ids: (u64, u64),
    // the lengths of an entry's name, or 0 and 0 for other kinds
    names: (u64, u64),
    // the bytes of the check
    area: usize,
}

const ROWS: [Worked; 8] = [
    Worked {
        kind: Kind::Empty,
        number: 0,
        method: 0,
        flags: 0,
        radix: 0,
        keybits: [(0, 0), (0, 0)],
        keys: (0, 0),
        ids: (0, 0),
        names: (0, 0),
        area: 0,
    },
    Worked {
        kind: Kind::Inode,
        number: 1,
        method: 3,
        flags: 0,
        radix: 10,
        keybits: [(0, 0), (0, 0)],
        keys: (1, 4_611_686_018_427_387_903),
        ids: (1, 4_611_686_018_427_387_904),
        names: (0, 0),
        area: 8,
    },
    Worked {
        kind: Kind::Indirect,
        number: 2,
        method: 3,
        flags: 0,
        radix: 12,
        keybits: [(1, 62), (1, 62)],
        keys: (0, 18_446_744_073_709_551_615),
        ids: (1, 4_611_686_018_427_387_904),
        names: (0, 0),
        area: 8,
    },
    Worked {
        kind: Kind::Content,
        number: 3,
        method: 3,
        flags: 0,
        radix: 14,
        keybits: [(14, 14), (14, 14)],
        keys: (0, 1_099_511_627_775),
        ids: (1, 4_611_686_018_427_387_904),
        names: (0, 0),
        area: 8,
    },
    Worked {
        kind: Kind::Dirent,
        number: 4,
        method: 0,
        flags: 1,
        radix: 0,
        keybits: [(0, 0), (0, 0)],
        keys: (9_223_372_036_854_775_808, 18_446_744_073_709_551_615),
        ids: (1, 4_611_686_018_427_387_904),
        names: (1, 64),
        area: 0,
    },
    Worked {
        kind: Kind::Dirent,
        number: 4,
        method: 3,
        flags: 0,
        radix: 10,
        keybits: [(0, 0), (0, 0)],
        keys: (9_223_372_036_854_775_808, 18_446_744_073_709_551_615),
        ids: (1, 4_611_686_018_427_387_904),
        names: (65, 255),
        area: 8,
    },
    Worked {
        kind: Kind::MapNode,
        number: 5,
        method: 5,
        flags: 0,
        radix: 10,
        keybits: [(28, 28), (31, 31)],
        keys: (0, 17_179_869_183),
        ids: (1, 4_611_686_018_427_387_904),
        names: (0, 0),
        area: 4,
    },
    Worked {
        kind: Kind::MapLeaf,
        number: 6,
        method: 5,
        flags: 0,
        radix: 10,
        keybits: [(25, 25), (25, 25)],
        keys: (0, 17_179_869_183),
        ids: (1, 4_611_686_018_427_387_904),
        names: (0, 0),
        area: 4,
    },
];

#[test]
fn rows_are_those_of_the_format(rt: HostRuntime) -> Result<(), Fail> {
    for (i, worked) in ROWS.iter().enumerate() {
        let row = row_of(worked.kind, worked.method);
        assert_eq!(rt; kind_of(worked.number), Some(worked.kind), "row {i}");
        assert_eq!(rt; row.number, worked.number, "row {i}");
        assert_eq!(rt; row.flags.bits(), worked.flags, "row {i}");
        assert_eq!(rt; row.radix, worked.radix, "row {i}");
        assert_eq!(rt; (row.keys.least, row.keys.last), worked.keys, "row {i}");
        assert_eq!(rt; (row.ids.least, row.ids.last), worked.ids, "row {i}");
        let names = row.names.map(|names| (names.least, names.last));
        assert_eq!(rt; names.unwrap_or((0, 0)), worked.names, "row {i}");
        let method = method_row(method_in(row.methods, worked.method));
        assert_eq!(rt;
            (method.number, method.area),
            (worked.method, worked.area),
            "row {i}"
        );
        let [low, high] = worked.keybits;
        for n in 0..=255u8 {
            assert_eq!(rt;
                is_method_of(row.methods, n),
                n == worked.method,
                "row {i}, {n}"
            );
            let allowed = low.0 <= n && n <= low.1 || high.0 <= n && n <= high.1;
            assert_eq!(rt; has_keybits(row.keybits, n), allowed, "row {i}, {n}");
        }
    }
    for number in 7..=255u8 {
        assert_eq!(rt; kind_of(number), None);
    }
    Ok(())
}

// The rows of an entry by each method: the first with 0 alone.
#[test]
fn the_method_tells_the_rows_of_an_entry_apart(rt: HostRuntime) -> Result<(), Fail> {
    for method in 0..=255u8 {
        let row = row_of(Kind::Dirent, method);
        assert_eq!(rt; row.flags.bits() == 1, method == 0, "method {method}");
        assert_eq!(rt; row.number, 4, "method {method}");
    }
    Ok(())
}

// A kind that allows two methods: each by its number, and no other number.
#[test]
fn a_kind_may_allow_two_methods(rt: HostRuntime) -> Result<(), Fail> {
    let methods = Methods::Two(Method::Freemap, Method::Xxhash64);
    for number in 0..=255u8 {
        assert_eq!(rt; is_method_of(methods, number), number == 3 || number == 5);
    }
    assert_eq!(rt; method_row(method_in(methods, 5)).area, 4);
    assert_eq!(rt; method_row(method_in(methods, 3)).area, 8);
    Ok(())
}
