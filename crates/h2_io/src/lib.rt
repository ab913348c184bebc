//! Where a program's text goes.
//!
//! A sink is seen as the list of bytes that it holds and its count of faults. A refusal of the outside
//! comes only where that count rose, and nothing of the piece was taken then.
#![tactic(auto)]

mod memory;
mod printing;
mod sink;
mod standard;

pub use memory::MemSink;
pub use printing::print;
pub use sink::{PutFault, Sink};
pub use standard::StdSink;

#[cfg(test)]
mod tests;
