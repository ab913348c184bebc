ghost use Rattle.std.specs.Prelude.{◌≡◌, ◌↔◌, IsTrue, All, ℕ};
ghost use Rattle.h2_command.specs.Lawful.{IsLawfulItem};
ghost use Rattle.h2_forest.specs.History.{io_of, IsRise, risen, FaultsRise, index_of, IsCounted, counted, CountsUp, phase_of, moment_of, IsFrom, or_later, NeverFalls};

use h2_command::{Item, Mark, Reply};

/// The counts of a disk fault, before its step and after it.
fn io_of(item: &Item) -> Option<(u64, u64)>
    ensures { result ≡ io_of item.now }
{
    let Item::Call(entry) = item else {
        return None;
    };
    let Reply::Io { before, after } = &entry.reply else {
        return None;
    };
    Some((*before, *after))
}

fn is_rise(floor: u64, counts: Option<(u64, u64)>) -> bool
    ensures { IsTrue result ↔ IsRise floor counts }
{
    let Some((before, after)) = counts else {
        return true;
    };
    if before < floor {
        return false;
    }
    before < after || after == u64::MAX
}

fn risen(floor: u64, counts: Option<(u64, u64)>) -> u64
    ensures { result ≡ risen floor counts }
{
    match counts {
        Some((_, after)) => floor.max(after),
        None => floor,
    }
}

/// Whether each disk fault's counts rise, from where an earlier one left them.
pub fn faults_rise(items: &[Item]) -> bool
    ensures { IsTrue result ↔ FaultsRise items.now }
{
    let mut floor = 0;
    for item in items {
        let counts = io_of(item);
        if !is_rise(floor, counts) {
            return false;
        }
        floor = risen(floor, counts);
    }
    true
}

/// The index of an entry of a client.
fn index_of(client: u32, item: &Item) -> Option<u32>
    ensures { result ≡ index_of client item.now }
{
    let Item::Call(entry) = item else {
        return None;
    };
    if entry.client == client {
        return Some(entry.index);
    }
    None
}

fn is_counted(next: u64, index: Option<u32>) -> bool
    ensures { IsTrue result ↔ IsCounted next index }
{
    match index {
        Some(index) => index as u64 == next,
        None => true,
    }
}

fn counted(next: u64, index: Option<u32>) -> u64
    ensures { result ≡ counted next index }
{
    match index {
        Some(index) => index as u64 + 1,
        None => next,
    }
}

/// Whether a client's entries have the indices 0, 1, 2 and on.
fn counts_up(client: u32, items: &[Item]) -> bool
    ensures { IsTrue result ↔ CountsUp client items.now }
{
    let mut next = 0;
    for item in items {
        let index = index_of(client, item);
        if !is_counted(next, index) {
            return false;
        }
        next = counted(next, index);
    }
    true
}

/// Whether the entries of each client have the indices 0, 1, 2 and on. There are 8 clients.
pub fn indices_count_up(items: &[Item]) -> bool
    requires { All IsLawfulItem items.now }
    ensures { IsTrue result ↔ ((client : ℕ) → CountsUp client items.now) }
{
    for client in 0..8u32 {
        if !counts_up(client, items) {
            return false;
        }
    }
    true
}

/// The phase of an entry.
fn phase_of(item: &Item) -> Option<u64>
    ensures { result ≡ phase_of item.now }
{
    let Item::Call(entry) = item else {
        return None;
    };
    Some(entry.phase as u64)
}

/// The moment of a mark.
fn moment_of(item: &Item) -> Option<u64>
    ensures { result ≡ moment_of item.now }
{
    let Item::Mark(mark) = item else {
        return None;
    };
    match mark {
        Mark::Freeze { moment, .. } => Some(*moment),
        Mark::HeaderOut { moment, .. } => Some(*moment),
        Mark::HeaderDone { moment, .. } => Some(*moment),
        _ => None,
    }
}

fn is_from(low: u64, number: Option<u64>) -> bool
    ensures { IsTrue result ↔ IsFrom low number }
{
    match number {
        Some(number) => low <= number,
        None => true,
    }
}

/// Whether the phases of entries never fall.
pub fn phases_never_fall(items: &[Item]) -> bool
    ensures { IsTrue result ↔ NeverFalls phase_of items.now }
{
    let mut low = 0;
    for item in items {
        let phase = phase_of(item);
        if !is_from(low, phase) {
            return false;
        }
        low = phase.unwrap_or(low);
    }
    true
}

/// Whether the moments of marks never fall.
pub fn moments_never_fall(items: &[Item]) -> bool
    ensures { IsTrue result ↔ NeverFalls moment_of items.now }
{
    let mut low = 0;
    for item in items {
        let moment = moment_of(item);
        if !is_from(low, moment) {
            return false;
        }
        low = moment.unwrap_or(low);
    }
    true
}
