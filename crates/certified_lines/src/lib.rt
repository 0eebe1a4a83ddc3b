//! The lines of a log with certificates, and how each is read back.
#![tactic(auto)]

mod laws;
mod line;
mod numbers;
mod reader;

pub use laws::{one_line, whole_lines};
pub use line::{CertLine, LineError};
pub use reader::cert_line;

#[cfg(test)]
mod tests;
