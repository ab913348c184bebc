//! The ledger of space as a plain program: codes and blocks in lists, and a function for each move.
//!
//! Each function is proved to make its move of `h2_ledger`, so that every move is known to be possible,
//! and worked cases of bulkfree are run on it as tests. A volume keeps the same in better ways: this is
//! the definition at work, for readers and tests, and no part of a volume stands on it.
#![tactic(auto)]

mod blocks;
mod bulkfree;
mod buying;
mod codes;
mod cursors;
mod flushing;
mod ledger;
mod passes;
mod sharing;
mod taking;

pub use buying::Payment;
pub use cursors::Cursors;
pub use ledger::PlainLedger;

#[cfg(test)]
mod tests;
