//! What the speculative decoder keeps: its tickets, and what each slot brings.
#![tactic(auto)]

mod claim;
mod reading;
mod tickets;
mod timeline;
mod waiting;

pub use claim::Claim;
pub use tickets::Tickets;
pub use timeline::Timeline;
