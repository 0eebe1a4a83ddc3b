//! The core of the speculative decoder under a lock, for workers and a reader.
#![tactic(auto)]

mod finish;
mod guessed;
mod guesser;
mod locked;
mod names;
mod reader;
mod reading;
mod share;
mod table;

pub use names::NamesSetting;
pub use reader::Reader;
pub use share::Share;
pub use table::Table;
