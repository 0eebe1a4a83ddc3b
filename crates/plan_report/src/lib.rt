//! A plan as one line of JSON.
#![tactic(auto)]

mod line;
mod members;
mod rows;

pub use line::plan_text;
