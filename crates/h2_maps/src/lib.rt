//! Laws of finite maps that search trees keep.
//!
//! A type of this project that keeps a `BTreeMap` is seen as a finite map, which is told by what it has
//! at each key. `specs/Maps` ties what std says of a tree's entries to that: a lookup, an insertion, a
//! removal, a copy, and the order of the keys. The crate has laws alone.
#![tactic(auto)]
