//! Claims.
use detector_graph::Bits;
use std::marker::Model;
use window_model::Origin;

/// A claim of a window. For each of the window's dependencies, in order, it has the flips that it
/// takes for those of the dependency's commit: a bit for each place that the two share.
#[derive(Drop)]
pub struct Claim {
    pub window: u32,
    /// Where the bits of each dependency come from.
    pub origins: Vec<Origin>,
    pub bits: Vec<Bits>,
}

impl Model for Claim {
    ghost use Rattle.core_store.specs.Tickets.{ClaimBits};

    ghost Value = { ClaimBits };

    ghost view = { λ c. record {
      window = c.window;
      origins = c.origins.items;
      bits = c.bits.items;
    } };
}
