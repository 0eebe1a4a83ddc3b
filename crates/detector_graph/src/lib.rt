//! Detector graphs, sets of their edges, and matching problems with least answers.
#![tactic(auto)]

mod bits;
mod counts;
mod edge_set;
mod edges;
mod folded;
mod graph;
mod incidence;
mod packed;
mod part;
mod problem;
mod rows;
mod steps;

pub use bits::Bits;
pub use counts::add_one;
pub use edge_set::EdgeSet;
pub use edges::{Edge, Labels};
pub use folded::Folded;
pub use graph::Graph;
pub use graph_model::{PartEdge, Tag};
pub use part::Part;
pub use problem::{Decoded, Problem, Solver};
pub use rows::Rows;

#[cfg(test)]
mod tests;
