//! What the tickets of windows rest on: on guesses, or on other tickets, and what a wrong guess
//! takes down with it.
#![tactic(auto)]

mod book;
mod entry;
mod support;

pub use book::Book;
pub use support::Support;

#[cfg(test)]
mod tests;
