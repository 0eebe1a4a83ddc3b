//! Workers at a table: each takes a job under the table's lock, decodes it while the lock is free,
//! and reports the answer.
#![tactic(auto)]

mod gate;
mod step;
mod worker;
mod working;

pub use gate::{Gate, OpenGate};
pub use worker::{WorkEnd, Worker};
pub use working::{drain, help_until, work};
