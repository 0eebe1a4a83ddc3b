//! The header and the rows of an input, taken byte by byte and no byte further than they reach.
#![tactic(auto)]

mod error;
mod rows;
mod text;

pub use error::{HeaderError, RowError, RowKind};
pub use rows::RowReader;
pub use text::header;

#[cfg(test)]
mod tests;
