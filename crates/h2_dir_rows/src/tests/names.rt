//! Names with their numbers, in byte order: what a directory is compared with.

use super::changing::NewEntry;
use h2_num::{Name, NoMemory};
use h2_ref::Dirent;
use std::alloc::Global;
use std::test::Fail;

/// Their first number.
const FIRST: u64 = 1000;

/// Their lengths, in turn: those that stand in their entries, and those with a block.
const LENGTHS: [usize; 8] = [1, 3, 63, 64, 65, 100, 200, 255];

/// The most bytes of a name that stands in its entry.
const SHORT_NAME_BYTES: usize = 64;

/// Where the blocks of names lie.
const NAME_PLACE: u64 = 1 << 24;

const NAME_BLOCK_BYTES: u64 = 1024;

/// A name that may be in the directory.
#[derive(Drop)]
pub(super) struct Row {
    pub name: Name,
    pub number: u64,
    /// The place of the block of a name of more than 64 bytes.
    pub block: Option<u64>,
    /// Whether the directory has it.
    pub is_in: bool,
}

impl Row {
    /// The entry that is to be added.
    pub fn entry(&self) -> NewEntry<'_> {
        NewEntry {
            name: self.name.as_slice(),
            block: self.block,
            number: self.number,
            target: target_of(self.number),
        }
    }

    /// Whether an entry is that of this row.
    pub fn is_told_by(&self, entry: &Dirent) -> bool {
        entry.number == self.number
            && entry.target == target_of(self.number)
            && entry.len as usize == self.name.as_slice().len()
    }
}

// Every other entry names a directory.
fn target_of(number: u64) -> u8 {
    if number % 2 == 0 { 1 } else { 2 }
}

// A name of one byte is a letter. Any other has three digits, in front of or behind bytes that are all the same, so
// that many long names differ in their last bytes alone.
fn name_of(alloc: Global, i: u64) -> Result<Name, NoMemory> {
    let len = LENGTHS[(i % 8) as usize];
    let turn = i / 8;
    if len == 1 {
        return Name::from_slice(alloc, &[b'A' + (turn % 26) as u8]);
    }
    let digits = [
        b'0' + (i / 100 % 10) as u8,
        b'0' + (i / 10 % 10) as u8,
        b'0' + (i % 10) as u8,
    ];
    let mut bytes = Vec::new(alloc);
    if turn % 2 == 0 {
        bytes.extend_from_slice(&digits)?;
    }
    for _ in 3..len {
        bytes.push(b'x')?;
    }
    if turn % 2 == 1 {
        bytes.extend_from_slice(&digits)?;
    }
    Name::from_slice(alloc, &bytes)
}

fn row_of(name: Name, number: u64) -> Row {
    let block = if name.as_slice().len() > SHORT_NAME_BYTES {
        Some(NAME_PLACE + number % FIRST * NAME_BLOCK_BYTES)
    } else {
        None
    };
    Row {
        name,
        number,
        block,
        is_in: false,
    }
}

/// So many names in byte order; none is in the directory.
pub(super) fn some_rows(alloc: Global, count: u64) -> Result<Vec<Row>, Fail> {
    let mut named = Vec::new(alloc);
    for i in 0..count {
        named.push((name_of(alloc, i)?, FIRST.saturating_add(i)))?;
    }
    named.sort()?;
    let mut rows = Vec::new(alloc);
    for (name, number) in named {
        rows.push(row_of(name, number))?;
    }
    Ok(rows)
}

/// An order in which all rows come.
#[derive(Clone, Copy, Debug)]
pub(super) enum Order {
    Ascending,
    Descending,
    Shuffled,
}

/// The row that comes at a step; there is at least one.
pub(super) fn place_at(order: Order, step: usize, rows: &[Row]) -> usize {
    let n = rows.len();
    if step >= n {
        return 0;
    }
    match order {
        Order::Ascending => step,
        Order::Descending => n - 1 - step,
        // 73 has no divisor in common with how many there are in any test.
        Order::Shuffled => step % 200 * 73 % n,
    }
}
