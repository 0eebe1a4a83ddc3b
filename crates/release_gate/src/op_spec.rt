//! Operations as they are handed over.
ghost use Rattle.std.specs.Prelude.{◌≡◌};
ghost use Rattle.release_gate.specs.Operations.{raw_slots_of};
ghost use Rattle.window_model.specs.Windows.{greatest};

use std::marker::Model;

/// A conditional operation: its slot, and the observables whose exclusive or it needs, each with
/// the slot of its raw value.
#[derive(Drop)]
pub struct OpSpec {
    pub slot: u32,
    /// An observable's number, and the slot in which its raw value arrives.
    pub labels: Vec<(u16, u32)>,
}

impl Model for OpSpec {
    ghost use Rattle.release_gate.specs.Operations.{TimedOperation};

    ghost Value = { TimedOperation };

    ghost view = { λ op. record { slot = op.slot; labels = op.labels.items } };
}

impl OpSpec {
    /// The greatest slot of its raw values: 0 where it has no observable.
    pub fn last_raw(&self) -> u32
        ensures { result ≡ greatest (raw_slots_of self.now) }
    {
        let mut round: u32 = 0;
        for label in &self.labels {
            round = round.max(label.1);
        }
        round
    }
}
