//! The rows of a schedule's slots, read one after another and decoded as they come, by the thread
//! that reads or by others beside it; and the releases that they bring.
#![tactic(auto)]

mod bench;
mod reading;
mod releases;
mod rest;
mod rounds;
mod telling;
mod working;

pub use decode_workers::{Gate, OpenGate};
pub use rounds::{Rounds, read_rounds};
pub use working::Crew;
