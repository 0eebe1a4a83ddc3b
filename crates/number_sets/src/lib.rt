//! Sets of numbers that are read off in order, and lists of numbers by their place.
#![tactic(auto)]

mod lists;
mod marks;
mod numbers;

pub use lists::Lists;
pub use numbers::NumberSet;
