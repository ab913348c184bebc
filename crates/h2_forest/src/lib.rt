//! The plain forest, by which every reply of the volume is measured.
//!
//! A forest is a list of PFSs, each a finite map from inode numbers to files and directories, with the open
//! handles beside them. `specs/Forest` says by cases what each command answers and changes, its refusals in
//! their order: there are no blocks, no flushes and no steps in it. `Forest::apply` is that, exactly.
//! `specs/History` says what the history of a run may look like, part by part; `replay` and `judge` decide
//! it. `specs/Landing` says where a power cut lands and what was frozen there, which `may_land` and
//! `frozen_forest` tell, and `specs/Whole` when a history is whole for a script. `specs/Ids` says what every command
//! keeps of the ids and names of PFSs and of the numbers of their inodes (`ids_law`, `names_law`, `numbers_law`).
#![tactic(auto)]

mod directory;
mod flush_order;
mod forest;
mod handles;
mod item_order;
mod judging;
mod landing;
mod laws;
mod legality;
mod pass_order;
mod pfs;
mod pfs_list;
mod replay_result;
mod replaying;
mod table;

pub use directory::Directory;
pub use forest::Forest;
pub use h2_command::{Command, Entry, History, Item, Mark, Path, Payload, Reply, is_pfs_name};
pub use h2_contents::Contents;
pub use h2_num::{Bytes, Name, Names};
pub use handles::Handles;
pub use judging::{is_legal, judge};
pub use landing::{frozen_forest, may_land};
pub use laws::{ids_law, names_law, numbers_law, whole_example_law, whole_law};
pub use legality::{LastPass, Legality, Opening};
pub use pfs::Pfs;
pub use replay_result::Replay;
pub use replaying::replay;
pub use table::{Node, Table};
