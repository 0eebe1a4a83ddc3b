//! The core of the speculative decoder: a machine without threads that does the first thing that
//! can be done, turn by turn.
#![tactic(auto)]

mod answers;
mod compared;
mod given;
mod links;
mod looks;
mod machine;
mod quiet;
mod turn;

pub use core_state::{Claim, Event};
pub use machine::Core;
pub use turn::{Finished, Job, Reported, Turn};
