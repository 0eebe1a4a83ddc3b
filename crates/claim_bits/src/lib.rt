//! The bits of a claim: what a result flips at the places that two windows share, what is guessed
//! of
//! it before it is there, and whether a guess was right; and what an answer of a claim is good for.
#![tactic(auto)]

mod arrivals;
mod flips;
mod laws;

pub use arrivals::Arrivals;
pub use flips::{has_flips, write_flips};
pub use laws::{answered, kept};

#[cfg(test)]
mod tests;
