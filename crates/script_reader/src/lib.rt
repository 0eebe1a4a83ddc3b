//! A script, taken line by line and no byte further than its lines reach.
#![tactic(auto)]

mod command;
mod error;
mod found;
mod laws;
mod reader;
mod taking;

pub use error::ScriptError;
pub use found::Found;
pub use laws::{ended, last, read_on, stopped};
pub use reader::ScriptReader;

#[cfg(test)]
mod tests;
