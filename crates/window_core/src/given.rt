//! What the slots brought that have arrived.
ghost use Rattle.std.specs.Prelude.{◌≡◌, ◌≢◌, ◌≤◌, false, map, true};
ghost use Rattle.std.specs.Arc.{arc_value};
ghost use Rattle.core_state.specs.Arrivals.{FitsSlot, arrivals_in};
ghost use Rattle.core_state.specs.States.{events_of};

use crate::Core;
use detector_graph::Folded;
use std::sync::Arc;

impl Core {
    /// Whether the slots that have arrived brought just these values, in order.
    ///
    /// It costs time in proportion to the values.
    pub fn has_arrivals(&self, given: &[Arc<Folded>]) -> bool
        ensures yes { result ≡ true → arrivals_in (events_of self.now) ≡ map arc_value given.now }
        ensures no { result ≡ false → arrivals_in (events_of self.now) ≢ map arc_value given.now }
    {
        self.state.has_arrivals(given)
    }

    /// Whether there is a value for each detector of the slot, and a raw value for each observable,
    /// and it isn't past the last.
    pub fn fits_slot(&self, folded: &Folded) -> bool
        ensures yes { result ≡ true → FitsSlot self.now.task folded.now }
        ensures in_range { result ≡ true → folded.now.slot ≤ self.now.task.last_slot }
        ensures no { result ≡ false → folded.now.slot ≤ self.now.task.last_slot →
            ¬ FitsSlot self.now.task folded.now }
    {
        self.state.fits_slot(folded)
    }
}
