//! The freemap and the ledger of space meet here: what the freemap does to codes and cursors are moves of
//! the ledger.
//!
//! `h2_freemap` and `h2_ledger` know nothing of each other. A ledger has a freemap's space where it has
//! its codes and cursors (`specs/Space`). The law says that taking a block, adopting one and applying a
//! segment are then the moves that take, adopt and apply, once the rest of the ledger does its part; and
//! that what is reserved pays for what blocks need. There is no code but the law.
#![tactic(auto)]

mod laws;

pub use laws::freemap_law;

#[cfg(test)]
mod tests;
