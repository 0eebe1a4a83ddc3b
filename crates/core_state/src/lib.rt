//! The state of the speculative decoder: one call for each event.
#![tactic(auto)]

mod given;
mod looks;
mod opening;
mod scans;
mod state;

pub use core_journal::Event;
pub use core_store::Claim;
pub use state::CoreState;
