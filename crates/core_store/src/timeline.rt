//! A setting with what belongs to each slot.
ghost use Rattle.std.specs.Prelude.{◌≡◌, ◌≢◌, ◌<◌, ◌≤◌, IfOk, false, length, true};
ghost use Rattle.core_journal.specs.Entries.{raws_at, values_at};
ghost use Rattle.core_journal.specs.EntryLaws.{IsWrittenAt};
ghost use Rattle.window_model.specs.Speculation.{at_slot, detector_slots};
ghost use Rattle.window_model.specs.Windows.{window_count};
ghost use Rattle.release_laws.specs.Tables.{waiting_for};
ghost use Rattle.window_setting.specs.Settings.{IsSetting};
ghost use Rattle.window_setting.specs.Slots.{last_raws};

use crate::reading::reads;
use crate::waiting::{last_raws, operations_by_window};
use detector_graph::{Bits, Rows};
use number_sets::Lists;
use std::alloc::{AllocError, Global};
use std::marker::Model;
use window_setting::{Setting, detectors_by_slot, observables_by_slot, scatter};

/// What is decoded, with the detectors and the observables of each slot, the last slot of each
/// operation's raw values, and the operations that wait for each window.
pub struct Timeline {
    setting: Setting,
    detectors: Rows,
    observables: Rows,
    last_raws: Vec<u32>,
    waiting: Lists,
}

impl Drop for Timeline {
    fn drop(self) {
        let Timeline {
            setting: _,
            detectors: _,
            observables: _,
            last_raws: _,
            waiting: _,
        } = self;
    }
}

impl Model for Timeline {
    ghost use Rattle.window_model.specs.Decoder.{Task};
    ghost use Rattle.core_store.specs.Timelines.{IsTimeline};

    ghost Value = { Task };

    ghost view = { λ t. t.setting };

    ghost invariant = { λ t. IsTimeline t.setting t.detectors.rows t.observables.rows
        t.last_raws.items t.waiting };
}

impl Timeline {
    /// The setting with its slots.
    pub fn new(alloc: Global, setting: Setting) -> Result<Timeline, AllocError>
        ensures { IfOk result (λ t. t ≡ setting) }
    {
        let detectors = detectors_by_slot(alloc, &setting)?;
        let observables = observables_by_slot(alloc, &setting)?;
        let last_raws = last_raws(alloc, &setting)?;
        let waiting = operations_by_window(alloc, &setting)?;
        Ok(Timeline {
            setting,
            detectors,
            observables,
            last_raws,
            waiting,
        })
    }

    /// What holds of each setting.
    pub fn is_setting(&self)
        ensures { IsSetting self.now }
    {
        self.setting.is_setting();
    }

    /// What is decoded.
    pub fn setting(&self) -> &Setting
        ensures { result.now ≡ self.now }
    {
        &self.setting
    }

    /// Writes the values of a slot's detectors, in the order of their numbers, among those of all.
    pub fn write_values(&self, slot: u32, values: &Bits, into: &mut Bits)
        requires slot { slot ≤ self.now.last_slot }
        requires values { length values.now ≡ length (at_slot (detector_slots self.now) slot) }
        requires into { length into.old ≡ self.now.graph.vertices }
        ensures len { length into.new ≡ length into.old }
        ensures brought { values_at self.now into.new slot ≡ values.now }
        ensures others { IsWrittenAt (detector_slots self.now) slot into.old into.new }
    {
        self.setting.is_setting();
        scatter(self.detectors.row(slot), values, into);
    }

    /// Writes the raw values of a slot's observables, in the order of their numbers, among those of
    /// all.
    pub fn write_raws(&self, slot: u32, raws: &Bits, into: &mut Bits)
        requires slot { slot ≤ self.now.last_slot }
        requires raws { length raws.now ≡ length (at_slot self.now.raw_slots slot) }
        requires into { length into.old ≡ length self.now.raw_slots }
        ensures len { length into.new ≡ length into.old }
        ensures brought { raws_at self.now into.new slot ≡ raws.now }
        ensures others { IsWrittenAt self.now.raw_slots slot into.old into.new }
    {
        scatter(self.observables.row(slot), raws, into);
    }

    /// How many detectors a slot has.
    pub fn detectors_in(&self, slot: u32) -> usize
        requires { slot ≤ self.now.last_slot }
        ensures { result ≡ length (at_slot (detector_slots self.now) slot) }
    {
        self.detectors.row(slot).len()
    }

    /// How many observables have their raw values in a slot.
    pub fn observables_in(&self, slot: u32) -> usize
        requires { slot ≤ self.now.last_slot }
        ensures { result ≡ length (at_slot self.now.raw_slots slot) }
    {
        self.observables.row(slot).len()
    }

    /// Whether those of a slot's detectors, among the values of all, are these, in the order of
    /// their numbers.
    pub fn has_values(&self, slot: u32, values: &Bits, of: &Bits) -> bool
        requires slot { slot ≤ self.now.last_slot }
        requires of { length of.now ≡ self.now.graph.vertices }
        ensures yes { result ≡ true → values_at self.now of.now slot ≡ values.now }
        ensures no { result ≡ false → values_at self.now of.now slot ≢ values.now }
    {
        self.setting.is_setting();
        reads(self.detectors.row(slot), values, of)
    }

    /// Whether those of a slot's observables, among the raw values of all, are these, in the order
    /// of their numbers.
    pub fn has_raws(&self, slot: u32, raws: &Bits, of: &Bits) -> bool
        requires slot { slot ≤ self.now.last_slot }
        requires of { length of.now ≡ length self.now.raw_slots }
        ensures yes { result ≡ true → raws_at self.now of.now slot ≡ raws.now }
        ensures no { result ≡ false → raws_at self.now of.now slot ≢ raws.now }
    {
        reads(self.observables.row(slot), raws, of)
    }

    /// For each operation the last slot of its raw values.
    pub fn last_raws(&self) -> &[u32]
        ensures { result.now ≡ last_raws self.now }
    {
        &self.last_raws
    }

    /// The operations that wait for a window, ascending.
    pub fn waiting_for(&self, window: u32) -> &[u32]
        requires { window < window_count self.now.plan }
        ensures { result.now ≡ waiting_for self.now window }
    {
        self.waiting.get(window as usize)
    }
}
