//! A replay: the rows of an accepted schedule and a script after them, which is played line by line
//! on the core of the speculative decoder, and what is said of it.
#![tactic(auto)]

mod end;
mod play;
mod rows;
mod said;
mod whole;

pub use end::End;
pub use whole::replay;
