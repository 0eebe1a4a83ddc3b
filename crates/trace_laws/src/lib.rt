//! What the journal of the speculative decoder prints: its trace and its log, entry by entry.
#![tactic(auto)]

mod laws;

pub use laws::{line_told, logged, stands_yet, told_on, traced};
