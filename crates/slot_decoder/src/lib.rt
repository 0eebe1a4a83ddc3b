//! The speculative decoder on one thread: it takes slot after slot, and solves each problem as soon
//! as its window is claimed.
#![tactic(auto)]

mod answers;
mod decoder;
mod turns;

pub use decoder::SlotDecoder;
