//! Sets of vertices that lie in one another, as rings of their children.
#![tactic(auto)]

mod nest;
mod parents;

pub use link_lists::Ring;
pub use nest::Nest;

#[cfg(test)]
mod tests;
