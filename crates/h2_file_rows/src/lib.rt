//! Files at work, as tests of `h2_file` over sets in memory. They show what no contract says: that ample memory is enough,
//! that what was unloaded is found again, and which load fails how. What a file holds is compared with the plain list of
//! its blocks after each call.
#![tactic(auto)]

#[cfg(test)]
mod tests;
