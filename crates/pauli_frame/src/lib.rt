//! The Pauli frame: what the committed edges flip of each observable.
#![tactic(auto)]

mod frame;
mod laws;

pub use frame::Frame;
pub use laws::{bit_told, committed_once, followed};

#[cfg(test)]
mod tests;
