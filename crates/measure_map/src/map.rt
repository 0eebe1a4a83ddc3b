//! The map of a schedule's measurements.
ghost use Rattle.std.specs.Prelude.{◌≡◌, ◌<◌, ◌≤◌, ◌==◌, ℕ, Bool, List, [], filter, length, map, position, IfOk, IfErr, Some, slice_get, slice_index_or};
ghost use Rattle.surface_model.specs.Schedules.{Schedule as Whole};
ghost use Rattle.surface_model.specs.Measurements.{detectors, same_bit};
ghost use Rattle.surface_model.specs.Accepted.{IsAccepted};
ghost use Rattle.timetable.specs.Times.{times_of};
ghost use Rattle.measure_map.specs.Placed.{IsFirstOf, IsMap, PlacedDetector, before_slot, defects_at, map_of, raws_at};
ghost use Rattle.surface_model.specs.Limits.{most_detectors};
ghost use Rattle.measure_map.specs.Seen.{IsRefused};
ghost use Rattle.slot_bits.specs.Seen.{bit_of, bits_of};

use crate::building::{Counts, bits_of_slots, count, detectors};
use crate::fold::{bits_from, defects_of, of_slot, raws_of};
use crate::types::{Detector, MOST_DETECTORS, MapError};
use detector_graph::{Bits, Folded};
use schedule_reader::Schedule;
use schedule_rules::Program;
use slot_bits::{Bit, BitPlaces, Observable, SlotBits, observables, place_of};
use std::alloc::{AllocError, Global};
use std::marker::Model;
use timetable::Timetable;

/// The bits of each slot, and the detectors and observables with the places of their bits.
///
/// It is that of some schedule that is accepted, and has at most 1,000,000 detectors.
pub struct MeasureMap {
    bits: SlotBits,
    detectors: Vec<Detector>,
    /// For each slot the number of its first detector, or of the first after it.
    starts: Vec<u32>,
    observables: Vec<Observable>,
}

impl Drop for MeasureMap {
    fn drop(self) {
        let MeasureMap {
            bits: _,
            detectors: _,
            starts: _,
            observables: _,
        } = self;
    }
}

impl Model for MeasureMap {
    ghost use Rattle.measure_map.specs.Placed.{Placed};
    ghost use Rattle.measure_map.specs.Indexed.{IsIndexed};

    ghost Value = { Placed };

    ghost view = { λ m. record {
      lines = m.bits;
      detectors = m.detectors.items;
      observables = m.observables.items;
    } };

    ghost invariant = { λ m. IsIndexed (record {
      lines = m.bits;
      detectors = m.detectors.items;
      observables = m.observables.items;
    }) m.starts.items };
}

impl MeasureMap {
    /// The map of a schedule. It is refused where it has more than 1,000,000 detectors.
    pub fn new(alloc: Global, program: &Program) -> Result<MeasureMap, MapError>
        ensures given { IfOk result (λ m. m ≡ map_of program.now) }
        ensures few { IfOk result (λ m. length (detectors program.now) ≤ most_detectors) }
        ensures refused { IfErr result (IsRefused program.now) }
    {
        program.is_accepted();
        let times = Timetable::new(alloc, program)?;
        let map = MeasureMap::measured(alloc, program.schedule(), &times);
        drop(times);
        map
    }

    /// The map of a schedule with this timetable.
    fn measured(
        alloc: Global,
        schedule: &Schedule,
        times: &Timetable,
    ) -> Result<MeasureMap, MapError>
        requires accepted { IsAccepted schedule.now }
        requires times { times.now ≡ times_of schedule.now }
        ensures given { IfOk result (λ m. m ≡ map_of schedule.now) }
        ensures few { IfOk result (λ m. length (detectors schedule.now) ≤ most_detectors) }
        ensures refused { IfErr result (IsRefused schedule.now) }
    {
        schedule.is_read();
        let Counts { total, starts } = count(alloc, schedule, times)?;
        if total > MOST_DETECTORS {
            return Err(MapError::TooLarge { detectors: total });
        }
        let bits = bits_of_slots(alloc, schedule, times)?;
        let detectors = detectors(alloc, schedule, times, &bits)?;
        let observables = observables(alloc, &BitPlaces::new(schedule, &bits))?;
        Ok(MeasureMap {
            bits,
            detectors,
            starts,
            observables,
        })
    }

    /// The map is that of some schedule that is accepted.
    pub fn is_map(&self)
        ensures { IsMap self.now }
    {
        let _ = &self.bits;
    }

    /// How many slots there are, from 0 to the last.
    pub fn slots(&self) -> u32
        ensures { result ≡ length self.now.lines }
    {
        self.bits.slots()
    }

    /// The bits of a slot: the qubits that are read, and then the checks, each by row and then by
    /// column.
    pub fn bits_of_slot(&self, slot: u32) -> &[Bit]
        requires { slot < length self.now.lines }
        ensures { slice_get self.now.lines slot ≡ Some (bits_of result.now) }
    {
        self.bits.of_slot(slot)
    }

    /// How many bits a slot has.
    pub fn width(&self, slot: u32) -> u32
        requires { slot < length self.now.lines }
        ensures { result ≡ length (slice_index_or self.now.lines slot []) }
    {
        self.bits.of_slot(slot).len() as u32
    }

    /// The place of a bit among a slot's, where it is one of them: a search by halves.
    pub fn place_of(&self, slot: u32, bit: &Bit) -> Option<u32>
        requires { slot < length self.now.lines }
        ensures { result ≡ position (same_bit (bit_of bit.now))
            (slice_index_or self.now.lines slot []) }
    {
        place_of(self.bits.of_slot(slot), bit)
    }

    /// All detectors, in the order of their numbers: by slot, and then by row and column of the
    /// corner.
    pub fn detectors(&self) -> &[Detector]
        ensures { result.now ≡ self.now.detectors }
    {
        self.detectors.as_slice()
    }

    /// The number of the first detector in a slot or after it; where there is none, how many
    /// detectors there are.
    pub fn first_detector(&self, slot: u32) -> u32
        ensures { IsFirstOf self.now.detectors slot result }
    {
        if slot as usize >= self.starts.len() {
            return self.detectors.len() as u32;
        }
        self.starts[slot as usize]
    }

    /// The detectors of a slot, in the order of their numbers.
    pub fn detectors_of_slot(&self, slot: u32) -> &[Detector]
        requires { slot < length self.now.lines }
        ensures { result.now ≡ filter (λ (d : PlacedDetector). d.tag.slot == slot)
            self.now.detectors }
    {
        self.is_map();
        let first = self.first_detector(slot);
        let next = self.first_detector(slot + 1);
        of_slot(&self.detectors, slot, first, next)
    }

    /// All observables, in the order of their lines, a merge's own before its seam's.
    pub fn observables(&self) -> &[Observable]
        ensures { result.now ≡ self.now.observables }
    {
        self.observables.as_slice()
    }

    /// The values of a slot's detectors and observables, from the rows of the slot and of the one
    /// before it.
    pub fn fold(
        &self,
        alloc: Global,
        slot: u32,
        before: &Bits,
        row: &Bits,
    ) -> Result<Folded, AllocError>
        requires slot { slot < length self.now.lines }
        requires before { length before.now ≡ length (before_slot self.now.lines slot) }
        requires row { length row.now ≡ length (slice_index_or self.now.lines slot []) }
        ensures slot { IfOk result (λ f. f.slot ≡ slot) }
        ensures defects { IfOk result (λ f. (s : Whole) (rows : List (List Bool)) → IsAccepted s →
            self.now ≡ map_of s → before.now ≡ before_slot rows slot →
            row.now ≡ slice_index_or rows slot [] → f.defects ≡ defects_at s rows slot) }
        ensures raws { IfOk result (λ f. (s : Whole) (rows : List (List Bool)) → IsAccepted s →
            self.now ≡ map_of s → before.now ≡ before_slot rows slot →
            row.now ≡ slice_index_or rows slot [] → f.raws ≡ raws_at s rows slot) }
    {
        let detectors = self.detectors_of_slot(slot);
        let defects = defects_of(alloc, slot, before, row, detectors)?;
        let values = raws_of(alloc, slot, row, &self.observables)?;
        let raws = bits_from(alloc, &values)?;
        Ok(Folded {
            slot,
            defects,
            raws,
        })
    }
}
