//! The log of a run with what shows each committed set least.
#![tactic(auto)]

mod certs;
mod laws;
mod looks;
mod parts;
mod short;
mod shown;
mod text;
mod written;

pub use laws::read_back;
pub use text::certified_text;

#[cfg(test)]
mod tests;
