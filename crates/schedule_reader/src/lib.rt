//! Schedules read from their text, with the first line that is at fault.
#![tactic(auto)]

mod fault;
mod field;
mod items;
mod judge;
mod known;
mod line;
mod name;
mod piece;
mod reader;
mod schedule;

pub use fault::{FaultKind, ReadError, ScheduleFault};
pub use field::{is_number, number_of};
pub use name::Name;
pub use reader::read;
pub use schedule::{CondItem, InitItem, MergeItem, PatchItem, ReadItem, Schedule};
