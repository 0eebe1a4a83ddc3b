//! The rows of an accepted schedule, read slot by slot with the values that they give, and the
//! lines of releases.
#![tactic(auto)]

mod labels;
mod reader;
mod release;

pub use labels::labels_of;
pub use reader::SlotReader;
pub use release::{PutError, put_release};

#[cfg(test)]
mod tests;
