//! A slot of a schedule, with its bits and those of the slot before.
ghost use Rattle.std.specs.Prelude.{◌≡◌, ◌<◌, ◌||◌, All, List, length, position, slice_get, true, IfOk, Some};
ghost use Rattle.std.specs.List.{list_any};
ghost use Rattle.surface_model.specs.Measurements as measurements;
ghost use Rattle.surface_model.specs.Measurements.{Measurement, bits_of_slot, is_finished, is_prepared, same_bit};
ghost use Rattle.surface_model.specs.Accepted.{IsAccepted, IsInRange};
ghost use Rattle.surface_model.specs.Tags.{tag_of};
ghost use Rattle.patch_layout.specs.Items.{init_line, read_line};
ghost use Rattle.timetable.specs.Times.{times_of};
ghost use Rattle.slot_bits.specs.Order.{IsRising, has_bit};
ghost use Rattle.measure_map.specs.Slots.{IsQuietAfter, fixes};
ghost use Rattle.slot_bits.specs.Lines.{bits_before};
ghost use Rattle.slot_bits.specs.Seen.{bit_of, bits_of};

use graph_model::Tag;
use patch_layout::{Corner, init_line, is_check, kind, patch_region, read_line};
use schedule_reader::Schedule;
use slot_bits::{Bit, place_of, union};
use std::alloc::{AllocError, Global};
use std::marker::Model;
use surface_model::Basis;
use timetable::Timetable;

/// A slot of an accepted schedule: the lines that begin and end in it, its bits, and those of the
/// slot before.
#[derive(Drop)]
pub(crate) struct SlotView<'a> {
    schedule: &'a Schedule,
    times: &'a Timetable,
    slot: u32,
    before: &'a [Bit],
    bits: &'a [Bit],
}

impl<'a> Model for SlotView<'a> {
    ghost use Rattle.measure_map.specs.Seen.{IsSlot, SlotOf};

    ghost Value = { SlotOf };

    ghost view = { λ v. record { schedule = v.schedule.now; slot = v.slot } };

    ghost invariant = { λ v. IsSlot v.schedule.now v.times.now v.slot v.before.now v.bits.now };
}

impl<'a> SlotView<'a> {
    /// A slot with its bits and those of the slot before.
    pub(crate) fn new(
        schedule: &'a Schedule,
        times: &'a Timetable,
        slot: u32,
        before: &'a [Bit],
        bits: &'a [Bit],
    ) -> SlotView<'a>
        requires accepted { IsAccepted schedule.now }
        requires times { times.now ≡ times_of schedule.now }
        requires slot { slot < length times.now.inits }
        requires before { bits_of before.now ≡ bits_before schedule.now slot }
        requires bits { bits_of bits.now ≡ bits_of_slot schedule.now slot }
        ensures { result ≡ record { schedule = schedule.now; slot = slot } }
    {
        SlotView {
            schedule,
            times,
            slot,
            before,
            bits,
        }
    }

    /// The schedule is accepted.
    pub(crate) fn is_accepted(&self)
        ensures { IsAccepted self.now.schedule }
    {
        let _ = &self.slot;
    }

    /// The number of the slot.
    pub(crate) fn slot(&self) -> u32
        ensures { result ≡ self.now.slot }
    {
        self.slot
    }

    /// The place of a bit among the slot's, where it is one of them.
    pub(crate) fn place_of(&self, bit: &Bit) -> Option<u32>
        ensures { result ≡ position (same_bit (bit_of bit.now))
            (bits_of_slot self.now.schedule self.now.slot) }
    {
        place_of(self.bits, bit)
    }

    /// The place of a bit among those of the slot before, where it is one of them.
    pub(crate) fn place_before(&self, bit: &Bit) -> Option<u32>
        ensures { result ≡ position (same_bit (bit_of bit.now))
            (bits_before self.now.schedule self.now.slot) }
    {
        place_of(self.before, bit)
    }

    /// How many bits the slot has.
    pub(crate) fn width(&self) -> u32
        ensures { result ≡ length (bits_of_slot self.now.schedule self.now.slot) }
    {
        self.bits.len() as u32
    }

    /// The bit at this place of the slot's.
    pub(crate) fn bit_at(&self, place: u32) -> Bit
        requires { place < length (bits_of_slot self.now.schedule self.now.slot) }
        ensures { slice_get (bits_of_slot self.now.schedule self.now.slot) place
            ≡ Some (bit_of result) }
    {
        self.bits[place as usize]
    }

    /// Whether there is a slot before, and nothing begins or ends in this one.
    pub(crate) fn is_quiet(&self) -> bool
        ensures { result ≡ true → IsQuietAfter self.now.schedule self.now.slot }
    {
        self.slot > 0 && self.times.is_quiet(self.slot)
    }

    /// The bits of the slot and of the one before, each once.
    pub(crate) fn all_bits(&self, alloc: Global) -> Result<Vec<Bit>, AllocError>
        ensures rising { IfOk result (λ v. IsRising (bits_of v.items)) }
        ensures members { IfOk result (λ v. (b : measurements.Bit) →
            has_bit (bits_of v.items) b ≡ has_bit (bits_before self.now.schedule self.now.slot) b
            || has_bit (bits_of_slot self.now.schedule self.now.slot) b) }
    {
        union(alloc, self.before, self.bits)
    }

    /// The tag of a detector at a corner.
    pub(crate) fn tag_of(&self, corner: Corner) -> Tag
        ensures { (bits : List Measurement) →
            result ≡ tag_of self.now.schedule (record {
              slot = self.now.slot;
              corner = corner;
              bits = bits;
            }) }
    {
        let schedule = self.schedule;
        let pitch = schedule.distance + 1;
        Tag {
            slot: self.slot,
            tile_row: corner.row / pitch,
            tile_col: corner.col / pitch,
        }
    }

    /// Whether the corner is a check of a patch that is prepared in the slot, of the basis in which
    /// it is prepared.
    pub(crate) fn is_prepared(&self, corner: Corner) -> bool
        ensures { result ≡ is_prepared self.now.schedule self.now.slot corner }
    {
        prepares(self.schedule, self.times.inits(self.slot), corner)
    }

    /// Whether the corner is a check of a patch that is read in the slot, of the basis in which it
    /// is read.
    pub(crate) fn is_finished(&self, corner: Corner) -> bool
        ensures { result ≡ is_finished self.now.schedule self.now.slot corner }
    {
        finishes(self.schedule, self.times.reads(self.slot), corner)
    }
}

/// Whether a corner has a check of the patch that is of this basis.
fn fixes(schedule: &Schedule, patch: u32, basis: Basis, corner: Corner) -> bool
    requires ranges { IsInRange schedule.now }
    requires patch { patch < length schedule.now.patches }
    ensures { result ≡ fixes schedule.now patch basis corner }
{
    basis == kind(corner) && is_check(corner, patch_region(schedule, patch))
}

/// Whether the corner is a check of a patch that one of these lines prepares, of the basis in which
/// it is prepared.
fn prepares(schedule: &Schedule, inits: &[u32], corner: Corner) -> bool
    requires ranges { IsInRange schedule.now }
    requires known { All (λ n. n < length schedule.now.inits) inits.now }
    ensures { result
        ≡ list_any (λ n. fixes schedule.now (init_line schedule.now n).patch
        (init_line schedule.now n).basis corner) inits.now }
{
    for number in inits {
        let init = init_line(schedule, *number);
        if fixes(schedule, init.patch, init.basis, corner) {
            return true;
        }
    }
    false
}

/// Whether the corner is a check of a patch that one of these lines reads, of the basis in which it
/// is read.
fn finishes(schedule: &Schedule, reads: &[u32], corner: Corner) -> bool
    requires ranges { IsInRange schedule.now }
    requires known { All (λ n. n < length schedule.now.reads) reads.now }
    ensures { result
        ≡ list_any (λ n. fixes schedule.now (read_line schedule.now n).patch
        (read_line schedule.now n).basis corner) reads.now }
{
    for number in reads {
        let read = read_line(schedule, *number);
        if fixes(schedule, read.patch, read.basis, corner) {
            return true;
        }
    }
    false
}
