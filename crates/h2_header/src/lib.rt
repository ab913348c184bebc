//! Volume headers, and their blocks of 64 KiB.
//!
//! A volume has four slots for headers. A checkpoint writes the header of its number into the slot whose
//! turn it is, and the newest header says what the volume is: its zones, and the references of the
//! super-root and of the freemap. What a header may hold is one relation (`specs/Header`), the geometry
//! of its map another (`specs/Map`), and its bytes a third, with a clause for each field and each gap
//! between (`specs/Header`). A header has one spelling, and a block spells one header at most
//! (`specs/HeaderLaws`). A block that spells none meets a first refusal, which is defined by its bytes
//! (`specs/Fault`). The geometry of the map is the same for the nodes of the freemap, so the crates above
//! use it from here.
#![tactic(auto)]

mod choosing;
mod fault;
mod header;
mod laws;
mod layout;
mod map_blocks;
mod map_check;
mod reading;
mod reading_refs;
mod rules;
mod writing;

pub use choosing::newest;
pub use fault::HeadFault;
pub use header::{HEADER_BYTES, Header, SLOTS};
pub use laws::{header_law, refusal_law};
pub use map_blocks::{
    is_map_entry, map_keybits, map_kind, map_place, top_level, turn_of, zones_under,
};
pub use map_check::check_of;
pub use reading::read_from;
pub use writing::write_into;

#[cfg(test)]
mod tests;
