//! Worked examples of the words in which space is spoken of, as laws; nothing else. They show that the definitions of
//! `h2_geom`, `h2_codes`, `h2_freemap`, `h2_header`, `h2_freeleaf` and `h2_image` give on small values what was worked
//! out by hand, and refuse other values.
#![tactic(auto)]

mod codes;
mod faults;
mod flags;
mod headers;
mod needs;
mod passes;
mod places;

pub use codes::worked_codes_law;
pub use faults::worked_least_law;
pub use flags::worked_bytes_law;
pub use headers::worked_newest_law;
pub use needs::{worked_map_counts_law, worked_needs_law};
pub use passes::worked_passes_law;
pub use places::{worked_places_law, worked_words_law};
