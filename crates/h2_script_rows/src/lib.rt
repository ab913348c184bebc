//! Scripts and the text of replies, as tests of `h2_script`. They show what no contract says: that the definitions
//! give the faults and the lines that were worked out by hand, and that ample memory is enough.
#![tactic(auto)]

#[cfg(test)]
mod tests;
