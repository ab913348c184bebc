//! Trees of sets at work, as tests of `h2_tree` over sets in memory. They show what no contract says: that
//! ample memory is enough, that what was unloaded is found again, that each load may fail, and that the
//! definitions give the lists that a plain sorted list gives.
#![tactic(auto)]

#[cfg(test)]
mod tests;
