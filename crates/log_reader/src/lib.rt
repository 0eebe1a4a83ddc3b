//! A log read back from its text.
#![tactic(auto)]

mod error;
mod laws;
mod reader;
mod step;
mod step_line;
mod word;

pub use error::LogError;
pub use laws::{logged, one_fault, one_log};
pub use reader::read_log;
pub use step::LogStep;
pub use step_line::{edges_of, step_of};
pub use word::{first_word, number_of};

#[cfg(test)]
mod tests;
