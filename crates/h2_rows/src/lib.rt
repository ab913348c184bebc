//! The worked examples of the program, as tests of `h2_cmd::run_alone` over the disks and sinks below
//! it. They show what no contract says: that ample memory is enough, how real files behave, and that
//! the definitions give the numbers and lines that were worked out by hand.
#![tactic(auto)]

#[cfg(test)]
mod tests;
