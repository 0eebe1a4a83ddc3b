//! Which windows wait, run, are held or committed, and which of them the speculative decoder turns
//! to next.
#![tactic(auto)]

mod laws;
mod phases;

pub use laws::{
    all_wait, table_claimed, table_committed, table_given_up, table_held, table_left,
    table_verified,
};
pub use phases::Phases;

#[cfg(test)]
mod tests;
