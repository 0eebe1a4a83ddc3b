//! Windows of a detector graph: which detectors and edges each decodes, which edges it commits, and
//! on which windows it depends.
#![tactic(auto)]

mod cells;
mod contents;
mod gather;
mod kinds;
mod layout;
mod owners;
mod plan_error;
mod plan_table;
mod planning;
mod search;
mod survey;
mod view;

pub use kinds::PlanKind;
pub use plan_error::PlanError;
pub use plan_table::Plan;
pub use planning::plan;
