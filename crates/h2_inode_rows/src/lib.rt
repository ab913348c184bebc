//! Worked examples of inodes and blocks, as tests of `h2_inode` and of the sets in its blocks. Of valid inodes of
//! every kind, indirect blocks and a name's block each byte is changed, one at a time, and what is at fault first is
//! told by the format's tables and its order of refusals, beside the code.
#![tactic(auto)]

#[cfg(test)]
mod tests;
