//! The freemap on disk at work, as tests of `h2_freeleaf`. They show what no contract says: that the definitions give
//! the bytes and the refusals that were worked out by hand, and that ample memory is enough.
#![tactic(auto)]

#[cfg(test)]
mod tests;
