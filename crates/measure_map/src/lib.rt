//! What is measured in each slot of a schedule, and which parities of it are watched.
#![tactic(auto)]

mod building;
mod detect;
mod fold;
mod gather;
mod map;
mod slot_view;
mod types;

pub use detector_graph::Folded;
pub use map::MeasureMap;
pub use slot_bits::{Bit, Corner, Observable, Qubit};
pub use types::{Detector, MapError};
