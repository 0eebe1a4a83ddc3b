//! The words after the program's name: which command they give, with its options.
#![tactic(auto)]

mod apps;
mod command;
mod options;
mod values;
mod words;

pub use command::{
    Command, DecodeOptions, Guessing, MakeOptions, PredictorKind, ReplayOptions, WindowOptions,
};
pub use words::{WordsError, command_of};

#[cfg(test)]
mod tests;
