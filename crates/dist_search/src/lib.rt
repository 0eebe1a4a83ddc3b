//! Least walk weights between the members of a matching problem.
#![tactic(auto)]

mod homes;
mod search;
mod star;
mod table;
mod trace;

pub use table::{DistTable, distances};
pub use trace::odd_edges;
