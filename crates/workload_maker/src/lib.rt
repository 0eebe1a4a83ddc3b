//! Inputs for the decoder that are made from a number: a schedule of patches side by side, some of
//! them merged, with rows in which each error of the schedule happened or not.
#![tactic(auto)]

mod digits;
mod errors;
mod header;
mod lines;
mod make_error;
mod making;
mod rows;
mod turns;

pub use make_error::MakeError;
pub use making::make;
