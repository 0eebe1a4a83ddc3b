//! The rules of a whole schedule, and the first that it breaks.
#![tactic(auto)]

mod lives;
mod program;
mod rules;

pub use program::{Program, RuleError, check};
