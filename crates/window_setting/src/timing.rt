//! When what is measured arrives, and what waits for it.
use release_gate::{Gates, OpSpec};

/// The slots of the observables' raw values, the conditional operations with what they wait for,
/// and the last slot.
#[derive(Drop)]
pub struct Timing {
    /// For each observable the slot of its raw value.
    pub raws: Vec<u32>,
    /// The conditional operations, in order.
    pub ops: Vec<OpSpec>,
    /// What each of them waits for.
    pub gates: Gates,
    pub last_slot: u32,
}
