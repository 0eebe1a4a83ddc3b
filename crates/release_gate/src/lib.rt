//! What conditional operations wait for: the windows that each needs, and its ready round, the slot
//! after which it can be released whatever the errors are.
#![tactic(auto)]

mod gate_error;
mod gate_table;
mod gating;
mod needed;
mod op_spec;
mod ready;
mod rounds;

pub use gate_error::GateError;
pub use gate_table::Gates;
pub use gating::gates;
pub use op_spec::OpSpec;
pub use ready::ready_slots;

#[cfg(test)]
mod tests;
