//! A primal-dual search for a least matching, which proposes pairs and numbers that show them
//! least.
#![tactic(auto)]

mod numbers;
mod over;
mod search;
mod slacks;

pub use search::candidate;
