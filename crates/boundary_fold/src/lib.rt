//! Windows taken as problems by themselves: their parts of the graph, what a window's commit flips
//! elsewhere, and the defects that its dependencies' commits leave it.
#![tactic(auto)]

mod defects;
mod division;
mod flips;
mod located;
mod turns;

pub use defects::incoming;
pub use division::parts;
pub use flips::out_flip;

#[cfg(test)]
mod tests;
