//! What a decoder is given: a graph under a plan, with each window's part, the conditional
//! operations, and what belongs to each slot.
#![tactic(auto)]

mod by_slot;
mod scattering;
mod setting;
mod timing;

pub use by_slot::{detectors_by_slot, observables_by_slot};
pub use scattering::scatter;
pub use setting::Setting;
pub use timing::Timing;
