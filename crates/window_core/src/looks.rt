//! What a core tells of itself, and arrivals.
ghost use Rattle.std.specs.Prelude.{◌≡◌, ◌<◌, ◌≤◌, ◌+◌, IsSome, count_by, false, true, length, option_map};
ghost use Rattle.graph_model.specs.Graph.{flip_of};
ghost use Rattle.window_model.specs.Decoder.{MayArrive, committed_edges, operation_at};
ghost use Rattle.window_model.specs.Speculation.{Arrived, decoder_of, done, result_of};
ghost use Rattle.window_model.specs.SpeculationLaws.{is_claim_of};
ghost use Rattle.window_model.specs.Windows.{window_count};
ghost use Rattle.core_journal.specs.declared.event.Event.TheVariants as entry;
ghost use Rattle.core_state.specs.States.{HasHappened, MayHappen, events_of, machine_of};
ghost use Rattle.window_core.specs.Cores.{AreReleased, IsAllCommitted, IsAllDone, IsAllReleased, raw_seen, value_seen};

use crate::Core;
use core_state::{CoreState, Event};
use detector_graph::{Decoded, EdgeSet, Folded};
use window_setting::Setting;

impl Core {
    /// All that happened, with what is kept of it.
    pub fn state(&self) -> &CoreState
        ensures { result.now ≡ self.now }
    {
        &self.state
    }

    /// What is decoded.
    pub fn setting(&self) -> &Setting
        ensures { result.now ≡ self.now.task }
    {
        self.state.setting()
    }

    /// What happened so far, in order.
    pub fn journal(&self) -> &[Event]
        ensures { result.now ≡ self.now.journal }
    {
        self.state.journal()
    }

    /// How many slots have arrived.
    pub fn arrived(&self) -> u32
        ensures { result ≡ (machine_of self.now).arrived }
    {
        self.state.arrived()
    }

    /// Whether a slot may arrive: it is the next one, isn't past the last, and every operation of
    /// it or of an earlier slot is released. It costs a look at the operations.
    pub fn may_arrive(&self, slot: u32) -> bool
        ensures yes { result ≡ true → MayArrive self.now.task
            (decoder_of self.now.task (machine_of self.now)) slot }
        ensures no { result ≡ false → ¬ MayArrive self.now.task
            (decoder_of self.now.task (machine_of self.now)) slot }
    {
        if slot != self.arrived() || slot > self.setting().last_slot {
            return false;
        }
        self.are_released(slot)
    }

    /// The next slot arrives, with a value for each of its detectors and a raw value for each of
    /// its observables. It costs what the slot holds.
    pub fn arrive(&mut self, folded: &Folded)
        requires { MayHappen self.old (Arrived folded.now.slot folded.now.defects folded.now.raws) }
        ensures { HasHappened self.old (entry.Arrived folded.now.slot)
            (Arrived folded.now.slot folded.now.defects folded.now.raws) self.new }
    {
        self.state.arrive(folded);
    }

    /// Whether every window is committed and every operation is released.
    pub fn all_done(&self) -> bool
        ensures yes { result ≡ true → IsAllDone self.now }
        ensures no { result ≡ false → ¬ IsAllDone self.now }
    {
        self.all_committed() && self.all_released()
    }

    /// The bit of an operation, once it is released.
    pub fn released(&self, op: u32) -> Option<bool>
        requires { op < length self.now.task.operations }
        ensures { result ≡ (machine_of self.now).released op }
    {
        self.state.released(op)
    }

    /// The edges that a window has committed, once it has.
    pub fn kept(&self, window: u32) -> Option<&EdgeSet>
        requires { window < window_count self.now.task.plan }
        ensures { option_map (λ set. set.now) result
            ≡ (decoder_of self.now.task (machine_of self.now)).kept window }
    {
        let ticket = self.committed(window)?;
        Some(self.state.kept_of(window, ticket))
    }

    /// The answer that a window has committed, once it has.
    pub fn decoded(&self, window: u32) -> Option<&Decoded>
        requires { window < window_count self.now.task.plan }
        ensures { option_map (λ d. d.now.set) result
            ≡ option_map (result_of (machine_of self.now))
            (done ((machine_of self.now).phase window)) }
    {
        self.state.is_state();
        let ticket = self.committed(window)?;
        self.state.answer_of(ticket)
    }

    /// The ticket of a committed window.
    fn committed(&self, window: u32) -> Option<u32>
        requires { window < window_count self.now.task.plan }
        ensures { result ≡ done ((machine_of self.now).phase window) }
    {
        if self.state.is_done(window) {
            self.state.standing(window)
        } else {
            None
        }
    }

    /// How often a window was claimed.
    pub fn claims(&self, window: u32) -> u32
        requires { window < window_count self.now.task.plan }
        ensures value { result ≡ count_by (is_claim_of window) (events_of self.now) }
        ensures few { result ≤ self.now.retries + 1 }
    {
        self.state.claims(window)
    }

    /// Whether the committed edges flip an observable.
    pub fn flip(&self, label: u32) -> bool
        requires { label < length self.now.task.raw_slots }
        ensures { result ≡ flip_of self.now.task.graph (committed_edges self.now.task
            (decoder_of self.now.task (machine_of self.now))) label }
    {
        self.state.flip(label)
    }

    /// The value of a detector, once its slot has arrived.
    pub fn value(&self, detector: u32) -> Option<bool>
        requires { detector < self.now.task.graph.vertices }
        ensures { result ≡ value_seen self.now detector }
    {
        self.state.is_state();
        if self.setting().slot(detector) < self.arrived() {
            Some(self.state.values().get(detector))
        } else {
            None
        }
    }

    /// The raw value of an observable, once its slot has arrived.
    pub fn raw(&self, observable: u32) -> Option<bool>
        requires { observable < length self.now.task.raw_slots }
        ensures { result ≡ raw_seen self.now observable }
    {
        self.state.is_state();
        if self.setting().raws[observable as usize] < self.arrived() {
            Some(self.state.raws().get(observable))
        } else {
            None
        }
    }

    fn all_committed(&self) -> bool
        ensures yes { result ≡ true → IsAllCommitted self.now }
        ensures no { result ≡ false → ¬ IsAllCommitted self.now }
    {
        for window in 0..self.setting().window_count() {
            if !self.state.is_done(window) {
                return false;
            }
        }
        true
    }

    fn all_released(&self) -> bool
        ensures yes { result ≡ true → IsAllReleased self.now }
        ensures no { result ≡ false → ¬ IsAllReleased self.now }
    {
        for op in 0..self.setting().operation_count() {
            if self.state.released(op).is_none() {
                return false;
            }
        }
        true
    }

    /// Whether every operation of these slots is released.
    fn are_released(&self, slot: u32) -> bool
        ensures yes { result ≡ true → AreReleased self.now slot }
        ensures no { result ≡ false → ¬ AreReleased self.now slot }
    {
        for op in 0..self.setting().operation_count() {
            if self.setting().operation(op).slot <= slot && self.state.released(op).is_none() {
                return false;
            }
        }
        true
    }
}
