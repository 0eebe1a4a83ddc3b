//! What runs of the program gave, as text, and whether two such texts say the same.
//!
//! A transcript has a line with the status and the number of bytes taken, and then the lines that
//! were put. A decoder with several workers may put its releases earlier or later, and commit
//! windows in another order; `canonical` gives transcripts that differ in this alone the same text.
//! What that text leaves out is looked at for itself: `trace_flaw` looks at the trace, and
//! `late_release` at when the releases were put.
#![tactic(auto)]

mod differing;
mod form;
mod lines;
mod shown;
#[cfg(test)]
mod tests;
mod timely;
mod trace;

pub use differing::difference;
pub use form::canonical;
pub use shown::{Shown, transcript};
pub use timely::late_release;
pub use trace::{TraceFlaw, trace_flaw};
