//! Which conditional operations may be released, while windows are committed one by one.
#![tactic(auto)]

mod laws;
mod waiting;
mod watch;

pub use laws::{first_ready, ready};
pub use watch::ReleaseWatch;

#[cfg(test)]
mod tests;
