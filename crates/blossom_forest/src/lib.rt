//! Alternating trees over the outermost sets of a nest, and the vertices' mates.
#![tactic(auto)]

mod climb;
mod expose;
mod forest;
mod open;
mod paths;
mod rematch;
mod ring;
mod step;
mod trees;

pub use forest::Forest;
pub use step::{Duals, Mark, Step};
