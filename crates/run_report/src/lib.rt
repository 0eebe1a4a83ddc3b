//! What a run says: the log, the trace and the summary of the speculative decoder, and the frames
//! of the observables. Beside it, the log that is read back from its text.
#![tactic(auto)]

mod counts;
mod done;
mod events;
mod fields;
mod frames;
mod lines;
mod links;
mod log;
mod report;
mod summary;
mod totals;
mod trace;

pub use events::write_event;
pub use fields::{end_line, write_label, write_line, write_spaced, write_word};
pub use frames::{frames_text, named, write_frames};
pub use log::{log_text, write_log, write_step};
pub use log_reader::{LogError, LogStep, read_log};
pub use report::{Trace, write_after_log, write_report};
pub use summary::write_summary;
pub use trace::{trace_text, write_trace};

#[cfg(test)]
mod tests;
