//! Which lines of a schedule begin, go on or end in each slot, and the regions that are active in
//! it.
#![tactic(auto)]

mod active;
mod lines;
mod span;
mod spans;
mod table;

pub use patch_layout::Region;
pub use table::Timetable;
