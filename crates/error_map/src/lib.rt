//! The error mechanisms of a schedule, the measurements that each changes, and the detector graph
//! that they make.
#![tactic(auto)]

mod active;
mod building;
mod changes;
mod ends;
mod keys;
mod listing;
mod lookup;
mod masks;
mod readings;
mod spots;
mod types;
mod watch;

pub use building::{Built, graph};
pub use changes::flips;
pub use listing::mechanisms;
pub use types::{Class, Mechanism};
