//! The worked examples of the plain forest, as tests of `h2_forest` over scripts that `h2_script` reads and
//! replies that it prints. They show what no contract says: that the definitions give the replies that were
//! worked out by hand, that ample memory is enough, and that a script of 65,536 commands is run.
#![tactic(auto)]

#[cfg(test)]
mod tests;
