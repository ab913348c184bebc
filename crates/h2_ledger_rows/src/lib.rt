//! Worked examples of the ledger of space, as laws; nothing else. They show that the definitions of `h2_ledger` say on
//! volumes of two segments what was worked out by hand, of ledgers and moves that there may be as of those that can't
//! be; and that the law of two passes needs each of its premises.
#![tactic(auto)]

mod passes;
mod premises;
mod sound;
mod takes;

pub use passes::{worked_pass_law, worked_passes_law};
pub use premises::{
    worked_first_marked_law, worked_joined_law, worked_second_marked_law, worked_third_pass_law,
    worked_twice_law,
};
pub use sound::{worked_sound_law, worked_unwritten_law};
pub use takes::{worked_adopt_law, worked_take_law};
