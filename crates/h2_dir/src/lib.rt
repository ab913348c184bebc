//! Directories: entries of names and numbers in the tree of an inode, over any [`Nodes`](h2_inode::Nodes).
//!
//! A directory is what its tree stands for: a finite map from names to inode numbers (`HoldsEntries` in
//! `specs/Finding`), where all its leaves and their names are told. Each call also says what it answers where they
//! aren't, by the loaded paths of keys: an entry that was found, or that none is known to have the name, is tied to them.
//!
//! `find` looks a name up, `spot` gives the key that a new entry gets, `add_at` and `remove_at` put an entry in and take
//! one out, with the directory's size, `list` gives all entries, and `walk` follows a path. `add_at` and `remove_at` can't
//! be refused: what they need is loaded and reserved before. The others load what they need and change nothing.
#![tactic(auto)]

mod adding;
mod entry;
mod fault;
mod finding;
mod laws;
mod listing;
mod naming;
mod placing;
mod removing;
mod resizing;
mod searching;
mod walking;

pub use adding::add_at;
pub use entry::entry_ref;
pub use fault::DirFault;
pub use finding::find;
pub use laws::found_law;
pub use listing::list;
pub use placing::spot;
pub use removing::remove_at;
pub use walking::walk;
