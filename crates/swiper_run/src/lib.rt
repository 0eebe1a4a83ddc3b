//! The top call: what the program does, from its words and its input to its status.
#![tactic(auto)]

mod fault;
mod make;
mod plan;
mod replay;
mod report;
mod top;
mod words;

pub use decode_rounds::{Gate, OpenGate};
pub use top::{Means, Status, run, run_with};
