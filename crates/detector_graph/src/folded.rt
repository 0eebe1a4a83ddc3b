//! The values of one slot.
use crate::Bits;

/// The values that a slot's row gives.
#[derive(Drop)]
pub struct Folded {
    pub slot: u32,
    /// The values of the slot's detectors, in the order of their numbers.
    pub defects: Bits,
    /// The values of the slot's observables, in the order of their numbers.
    pub raws: Bits,
}
