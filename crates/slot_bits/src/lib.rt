//! The bits of a schedule's slots: in which order they stand, the bits of a region, those of all
//! slots, and the observables by the places of their bits.
#![tactic(auto)]

mod bit_places;
mod bits;
mod observe;
mod order;
mod pieces;
mod table;

pub use bit_places::BitPlaces;
pub use bits::{Bit, Observable};
pub use observe::observables;
pub use order::{place_of, union};
pub use patch_layout::{Corner, Qubit};
pub use pieces::{with_outcomes, with_readouts};
pub use table::SlotBits;
