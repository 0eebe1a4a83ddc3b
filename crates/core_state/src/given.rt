//! What the slots brought that have arrived.
ghost use Rattle.std.specs.Prelude.{◌≡◌, ◌≢◌, ◌<◌, ◌≤◌, Some, false, length, map, slice_get, true};
ghost use Rattle.std.specs.Arc.{arc_value};
ghost use Rattle.core_state.specs.Arrivals.{FitsSlot, arrivals_in, kept_at};
ghost use Rattle.core_state.specs.States.{events_of, machine_of};
ghost use Rattle.window_model.specs.Speculation.{at_slot, detector_slots};

use crate::CoreState;
use core_store::Timeline;
use detector_graph::Folded;
use std::sync::Arc;

impl CoreState {
    /// Whether the slots that have arrived brought just these values, in order.
    ///
    /// It costs time in proportion to the values.
    pub fn has_arrivals(&self, given: &[Arc<Folded>]) -> bool
        ensures yes { result ≡ true → arrivals_in (events_of self.now) ≡ map arc_value given.now }
        ensures no { result ≡ false → arrivals_in (events_of self.now) ≢ map arc_value given.now }
    {
        self.is_state();
        if !self.are_as_many(given) {
            return false;
        }
        for slot in 0..self.arrived() {
            if !self.has_arrival(slot, slot_at(given, slot as usize)) {
                return false;
            }
        }
        true
    }

    /// Whether there is a value for each detector of the slot, and a raw value for each observable,
    /// and it isn't past the last.
    pub fn fits_slot(&self, folded: &Folded) -> bool
        ensures yes { result ≡ true → FitsSlot self.now.task folded.now }
        ensures in_range { result ≡ true → folded.now.slot ≤ self.now.task.last_slot }
        ensures no { result ≡ false → folded.now.slot ≤ self.now.task.last_slot →
            ¬ FitsSlot self.now.task folded.now }
    {
        if folded.slot > self.timeline.setting().last_slot {
            return false;
        }
        fits(&self.timeline, folded)
    }

    /// Whether so many slots have arrived.
    fn are_as_many(&self, given: &[Arc<Folded>]) -> bool
        ensures yes { result ≡ true → length given.now ≡ (machine_of self.now).arrived }
        ensures no { result ≡ false → length given.now ≢ (machine_of self.now).arrived }
    {
        given.len() == self.arrived() as usize
    }

    /// Whether a slot that has arrived brought these values.
    fn has_arrival(&self, slot: u32, folded: &Folded) -> bool
        requires { slot < (machine_of self.now).arrived }
        ensures yes { result ≡ true → kept_at self.now slot ≡ folded.now }
        ensures no { result ≡ false → kept_at self.now slot ≢ folded.now }
    {
        if !is_slot(folded, slot) {
            return false;
        }
        if !self
            .timeline
            .has_values(slot, &folded.defects, &self.values)
        {
            return false;
        }
        self.timeline.has_raws(slot, &folded.raws, &self.raws)
    }
}

/// Whether there is a value for each detector of a slot, and a raw value for each observable.
fn fits(timeline: &Timeline, folded: &Folded) -> bool
    requires { folded.now.slot ≤ timeline.now.last_slot }
    ensures yes { result ≡ true → FitsSlot timeline.now folded.now }
    ensures no { result ≡ false → ¬ FitsSlot timeline.now folded.now }
{
    if !has_each_value(timeline, folded) {
        return false;
    }
    has_each_raw(timeline, folded)
}

/// Whether there is a value for each detector of a slot.
fn has_each_value(timeline: &Timeline, folded: &Folded) -> bool
    requires { folded.now.slot ≤ timeline.now.last_slot }
    ensures yes { result ≡ true → length folded.now.defects
        ≡ length (at_slot (detector_slots timeline.now) folded.now.slot) }
    ensures no { result ≡ false → length folded.now.defects
        ≢ length (at_slot (detector_slots timeline.now) folded.now.slot) }
{
    folded.defects.len() as usize == timeline.detectors_in(folded.slot)
}

/// Whether there is a raw value for each observable of a slot.
fn has_each_raw(timeline: &Timeline, folded: &Folded) -> bool
    requires { folded.now.slot ≤ timeline.now.last_slot }
    ensures yes { result ≡ true → length folded.now.raws
        ≡ length (at_slot timeline.now.raw_slots folded.now.slot) }
    ensures no { result ≡ false → length folded.now.raws
        ≢ length (at_slot timeline.now.raw_slots folded.now.slot) }
{
    folded.raws.len() as usize == timeline.observables_in(folded.slot)
}

/// Whether the values are those of this slot.
fn is_slot(folded: &Folded, slot: u32) -> bool
    ensures yes { result ≡ true → folded.now.slot ≡ slot }
    ensures no { result ≡ false → folded.now.slot ≢ slot }
{
    folded.slot == slot
}

fn slot_at(given: &[Arc<Folded>], at: usize) -> &Folded
    requires { at < length given.now }
    ensures { slice_get (map arc_value given.now) at ≡ Some result.now }
{
    shared_at(given, at)
}

fn shared_at(given: &[Arc<Folded>], at: usize) -> &Arc<Folded>
    requires { at < length given.now }
    ensures { slice_get (map arc_value given.now) at ≡ Some (arc_value result.now) }
{
    &given[at]
}
