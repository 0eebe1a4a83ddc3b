//! Numbers that show a correction least, and a check of them.
#![tactic(auto)]

mod cert;
mod check;
mod correction;
mod duals;
mod sets;
mod sums;

pub use cert::Cert;
pub use check::{accepts, accepts_with};
