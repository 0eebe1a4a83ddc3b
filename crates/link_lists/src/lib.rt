//! Doubly linked lists by index.
#![tactic(auto)]

mod chains;
mod links;
mod ring;

pub use chains::Chains;
pub use links::Links;
pub use ring::Ring;

#[cfg(test)]
mod tests;
