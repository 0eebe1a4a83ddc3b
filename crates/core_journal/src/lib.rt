//! The journal of the speculative decoder, and the history that it stands for.
#![tactic(auto)]

mod event;
mod journal;
mod laws;

pub use event::Event;
pub use journal::Journal;
pub use laws::{arrived, brought, claimed, held, noted};

#[cfg(test)]
mod tests;
