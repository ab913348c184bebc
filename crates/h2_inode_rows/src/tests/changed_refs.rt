use h2_ref::RefFault;

/// A reference of a block, with what its bytes are told by.
#[derive(Clone, Copy, Debug, PartialEq, Eq)]
pub enum Slot {
    /// None: 128 zeros.
    Nothing,
    /// That of an inode under a key.
    Inode(u64),
    /// That of an indirect block under a key, with keybits.
    Indirect(u64, u8),
    /// That of contents under a key.
    Content(u64),
    /// The entry of a file with the name `ab` under a key.
    Short(u64),
    /// The entry of a directory with a name of 200 bytes under a key.
    Long(u64),
}

// The bytes of a reference to a block with a check by XXH64, but for its key: by the format's table kind,
// method, keybits, place and radix, id and check. The block lies 2^radix bytes behind 4 MiB.
fn block_bytes(kind: u8, keybits: u8, radix: u8, place: u8) -> [u8; 128] {
    let mut b = [0; 128];
    b[0] = kind;
    b[1] = 3;
    b[2] = keybits;
    b[16] = radix;
    b[17] = place;
    b[18] = 0x40;
    b[24] = 5;
    b[64] = 0x88;
    b[71] = 0x11;
    b
}

fn entry_bytes() -> [u8; 128] {
    let mut b = [0; 128];
    b[0] = 4;
    b[3] = 1;
    b[24] = 5;
    b[32] = 9;
    b[40] = 2;
    b[42] = 2;
    b[64] = b'a';
    b[65] = b'b';
    b
}

fn with_key(bytes: [u8; 128], key: u64) -> [u8; 128] {
    let mut b = bytes;
    let [k0, k1, k2, k3, k4, k5, k6, k7] = key.to_le_bytes();
    b[8] = k0;
    b[9] = k1;
    b[10] = k2;
    b[11] = k3;
    b[12] = k4;
    b[13] = k5;
    b[14] = k6;
    b[15] = k7;
    b
}

/// The bytes of a reference, by the format's table.
pub fn spelling(slot: Slot) -> [u8; 128] {
    match slot {
        Slot::Nothing => [0; 128],
        Slot::Inode(key) => with_key(block_bytes(1, 0, 10, 0x04), key),
        Slot::Indirect(key, keybits) => with_key(block_bytes(2, keybits, 12, 0x10), key),
        Slot::Content(key) => with_key(block_bytes(3, 14, 14, 0x40), key),
        Slot::Short(key) => with_key(entry_bytes(), key),
        Slot::Long(key) => {
            let mut b = with_key(block_bytes(4, 0, 10, 0x04), key);
            b[32] = 10;
            b[40] = 200;
            b[42] = 1;
            b
        }
    }
}

/// The eight bytes from a place on, as a number.
pub fn number(b: &[u8], at: usize) -> u64 {
    let Some(bytes) = b.get(at..) else {
        return 0;
    };
    match bytes.first_chunk::<8>() {
        Some(eight) => u64::from_le_bytes(*eight),
        None => 0,
    }
}

fn is_entry(slot: Slot) -> bool {
    matches!(slot, Slot::Short(_) | Slot::Long(_))
}

// A kind in place of the slot's own: the first column of the table that isn't its.
fn kind_fault(slot: Slot, value: u8) -> RefFault {
    let by_kind = match slot {
        Slot::Nothing => [
            RefFault::Kind(0),
            RefFault::Method(0),
            RefFault::Method(0),
            RefFault::Method(0),
            RefFault::Padding(3),
            RefFault::Method(0),
            RefFault::Method(0),
        ],
        Slot::Inode(_) => [
            RefFault::Method(3),
            RefFault::Kind(1),
            RefFault::Radix(10),
            RefFault::Radix(10),
            RefFault::Key,
            RefFault::Method(3),
            RefFault::Method(3),
        ],
        Slot::Indirect(_, _) => [
            RefFault::Method(3),
            RefFault::Radix(12),
            RefFault::Kind(2),
            RefFault::Radix(12),
            RefFault::Radix(12),
            RefFault::Method(3),
            RefFault::Method(3),
        ],
        Slot::Content(_) => [
            RefFault::Method(3),
            RefFault::Radix(14),
            RefFault::Radix(14),
            RefFault::Kind(3),
            RefFault::Radix(14),
            RefFault::Method(3),
            RefFault::Method(3),
        ],
        Slot::Short(_) => [
            RefFault::Padding(3),
            RefFault::Method(0),
            RefFault::Method(0),
            RefFault::Method(0),
            RefFault::Kind(4),
            RefFault::Method(0),
            RefFault::Method(0),
        ],
        Slot::Long(_) => [
            RefFault::Method(3),
            RefFault::Key,
            RefFault::Radix(10),
            RefFault::Radix(10),
            RefFault::Kind(4),
            RefFault::Method(3),
            RefFault::Method(3),
        ],
    };
    match value {
        0..=6 => by_kind[value as usize],
        _ => RefFault::Kind(value),
    }
}

// Another method: an entry's tells which of its two rows stands, whose flag is the other one.
fn method_fault(slot: Slot, value: u8) -> RefFault {
    if is_entry(slot) && (value == 0 || value == 3) {
        RefFault::Padding(3)
    } else {
        RefFault::Method(value)
    }
}

// Whether the row of the slot allows the key with its keybits.
fn key_fits(slot: Slot, key: u64, keybits: u8) -> bool {
    match slot {
        Slot::Nothing => key == 0 && keybits == 0,
        Slot::Inode(_) => 1 <= key && key < 1 << 62 && keybits == 0,
        Slot::Indirect(_, _) => 1 <= keybits && keybits <= 62 && key % (1 << keybits) == 0,
        Slot::Content(_) => key < 1 << 40 && key % 16384 == 0 && keybits == 14,
        Slot::Short(_) | Slot::Long(_) => key >= 1 << 63 && keybits == 0,
    }
}

fn place_fault(slot: Slot, number: u64) -> Option<RefFault> {
    let (radix, size) = match slot {
        Slot::Nothing | Slot::Short(_) => (0, 0),
        Slot::Inode(_) | Slot::Long(_) => (10, 1024),
        Slot::Indirect(_, _) => (12, 4096),
        Slot::Content(_) => (14, 16384),
    };
    let place = number / 64 * 64;
    let unplaced = if size == 0 {
        place != 0
    } else {
        place == 0 || place >= 17_179_869_184 || place % size != 0
    };
    if number % 64 != radix {
        Some(RefFault::Radix((number % 64) as u8))
    } else if unplaced {
        Some(RefFault::Place(place))
    } else {
        None
    }
}

fn unless(fits: bool, fault: RefFault) -> Option<RefFault> {
    if fits { None } else { Some(fault) }
}

// Another length of an entry's name: a shorter one leaves a byte of the name behind it.
fn len_fault(slot: Slot, len: u64) -> Option<RefFault> {
    match slot {
        Slot::Short(_) => match len {
            0 => Some(RefFault::Dirent),
            1 => Some(RefFault::Padding(65)),
            2..=64 => None,
            _ => Some(RefFault::Dirent),
        },
        _ => unless(65 <= len && len <= 255, RefFault::Dirent),
    }
}

/// What is at fault first in the 128 bytes of a reference of which one byte, at the place, now has the value.
pub fn fault_of(slot: Slot, at: usize, value: u8, b: &[u8]) -> Option<RefFault> {
    let padding = Some(RefFault::Padding((at % 128) as u8));
    let area_end = match slot {
        Slot::Nothing => 64,
        Slot::Short(_) => 66,
        _ => 72,
    };
    let id = number(b, 24);
    let entry = number(b, 32);
    match at {
        0 => Some(kind_fault(slot, value)),
        1 => Some(method_fault(slot, value)),
        2 => unless(key_fits(slot, number(b, 8), value), RefFault::Key),
        3..=7 => padding,
        8..=15 => unless(
            key_fits(slot, number(b, 8), spelling(slot)[2]),
            RefFault::Key,
        ),
        16..=23 => place_fault(slot, number(b, 16)),
        24..=31 => unless(
            slot != Slot::Nothing && 1 <= id && id <= 1 << 62,
            RefFault::Id,
        ),
        32..=39 if is_entry(slot) => unless(1 <= entry && entry < 1 << 62, RefFault::Dirent),
        40..=41 if is_entry(slot) => len_fault(slot, number(b, 40) % 65536),
        42 if is_entry(slot) => unless(value == 1 || value == 2, RefFault::Dirent),
        64..=127 if at < area_end => None,
        _ => padding,
    }
}
