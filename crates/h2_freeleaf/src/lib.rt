//! The freemap on disk: its blocks of 1 KiB, the plan of a copy of it, and the freemap of an image.
//!
//! A leaf has the codes of the eight segments of a zone, and a node the references of eight blocks below it.
//! Their bytes are relations with a clause for each field and each gap between (`specs/Leaf`, `specs/Node`). A
//! leaf or node has one spelling, and bytes spell one at most (`specs/LeafLaws`, `specs/NodeLaws`). Bytes that
//! spell none meet a first refusal, which is defined by the bytes (`specs/Fault`).
//!
//! The codes of an image under a header are those to which the header's map leads, over whole blocks
//! (`specs/InImage`); there is one list of them at most (`specs/InImageLaws`). [`plan`] makes what a checkpoint
//! writes, so that they are the codes of its freemap (`specs/Plan`), and [`read_map`] gives them, or the first
//! bad block (`specs/FirstBad`). Only these two calls take memory.
#![tactic(auto)]

mod fault;
mod laws;
mod layout;
mod leaf;
mod node;
mod part;
mod planning;
mod reading;

pub use fault::{MapFault, MapRead};
pub use laws::{code_law, leaf_law, map_law, node_law, refusal_law};
pub use layout::{LEAF_SEGMENTS, MAP_BYTES, NODE_REFS};
pub use leaf::{decode_leaf, encode_leaf};
pub use node::{decode_node, encode_node};
pub use planning::{MapPlan, plan};
pub use reading::read_map;
