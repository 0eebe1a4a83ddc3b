//! The bits and the detectors of all slots.
ghost use Rattle.std.specs.Prelude.{◌≡◌, ◌≤◌, ◌<◌, ◌+◌, ◌*◌, ◌++◌, List, [], length, map, IfOk, OnOk};
ghost use Rattle.std.specs.List.{filter_map, flat_map, range_with_len};
ghost use Rattle.surface_model.specs.Layout.{board, last_slot};
ghost use Rattle.surface_model.specs.Measurements.{bits_of_slot, detector_at, detectors};
ghost use Rattle.surface_model.specs.Accepted.{IsAccepted};
ghost use Rattle.surface_model.specs.Limits.{most_slots};
ghost use Rattle.timetable.specs.Times.{times_of};
ghost use Rattle.measure_map.specs.Placed.{before_slot, placed_detector};
ghost use Rattle.measure_map.specs.Slots.{detectors_before};
ghost use Rattle.slot_bits.specs.Lines.{bits_before, most_on_board};
ghost use Rattle.slot_bits.specs.Seen.{bits_of};

use crate::detect::{count_detectors, push_detectors};
use crate::gather::bits_of_slot;
use crate::slot_view::SlotView;
use crate::types::Detector;
use schedule_reader::Schedule;
use slot_bits::{Bit, SlotBits};
use std::alloc::{AllocError, Global};
use timetable::Timetable;

/// How many detectors the slots before one have, and the bits of the last of those slots.
#[derive(Drop)]
struct Counted {
    count: u64,
    bits: Vec<Bit>,
}

/// What was counted, with one more slot. Where nothing begins or ends each bit is the outcome of a
/// check that goes on.
fn with_slot(
    alloc: Global,
    schedule: &Schedule,
    times: &Timetable,
    slot: u32,
    counted: Counted,
) -> Result<Counted, AllocError>
    requires accepted { IsAccepted schedule.now }
    requires times { times.now ≡ times_of schedule.now }
    requires slot { slot < length times.now.inits }
    requires count { counted.count ≡ length (detectors_before schedule.now slot) }
    requires bits { bits_of counted.bits.items ≡ bits_before schedule.now slot }
    requires few { counted.count ≤ slot * most_on_board }
    requires slots { slot < most_slots }
    ensures count { IfOk result (λ k. k.count ≡ length (detectors_before schedule.now (slot + 1))) }
    ensures bits { IfOk result (λ k. bits_of k.bits.items ≡ bits_before schedule.now (slot + 1)) }
    ensures few { IfOk result (λ k. k.count ≤ (slot + 1) * most_on_board) }
{
    let Counted {
        count,
        bits: before,
    } = counted;
    if slot > 0 && times.is_quiet(slot) {
        return Ok(Counted {
            count: count + before.len() as u64,
            bits: before,
        });
    }
    let bits = bits_of_slot(alloc, schedule, times, slot)?;
    let view = SlotView::new(schedule, times, slot, &before, &bits);
    let more = count_detectors(alloc, &view)?;
    Ok(Counted {
        count: count + more,
        bits,
    })
}

/// How many detectors there are, and for each slot how many the slots before it have.
#[derive(Drop)]
pub(crate) struct Counts {
    pub(crate) total: u64,
    pub(crate) starts: Vec<u32>,
}

/// Counts the detectors.
pub(crate) fn count(
    alloc: Global,
    schedule: &Schedule,
    times: &Timetable,
) -> Result<Counts, AllocError>
    requires accepted { IsAccepted schedule.now }
    requires times { times.now ≡ times_of schedule.now }
    ensures total { IfOk result (λ c. c.total ≡ length (detectors schedule.now)) }
    ensures starts { IfOk result (λ c. c.starts.items
        ≡ map (λ t. length (detectors_before schedule.now t))
        (range_with_len 0 (last_slot schedule.now + 1))) }
{
    let mut starts = Vec::new(alloc);
    let mut counted = Counted {
        count: 0,
        bits: Vec::new(alloc),
    };
    for slot in 0..times.slots() {
        starts.push(counted.count as u32)?;
        counted = with_slot(alloc, schedule, times, slot, counted)?;
    }
    Ok(Counts {
        total: counted.count,
        starts,
    })
}

/// Adds the bits of one more slot. Where nothing begins or ends they are those of the slot before.
fn push_slot(
    bits: &mut SlotBits,
    alloc: Global,
    schedule: &Schedule,
    times: &Timetable,
    slot: u32,
) -> Result<(), AllocError>
    requires accepted { IsAccepted schedule.now }
    requires times { times.now ≡ times_of schedule.now }
    requires slot { slot < length times.now.inits }
    requires slots { slot < most_slots }
    requires bits { bits.old ≡ map (bits_of_slot schedule.now) (range_with_len 0 slot) }
    ensures { OnOk result
        (bits.new ≡ map (bits_of_slot schedule.now) (range_with_len 0 (slot + 1))) }
{
    if slot > 0 && times.is_quiet(slot) {
        bits.push_same()?;
    } else {
        bits.push(bits_of_slot(alloc, schedule, times, slot)?)?;
    }
    Ok(())
}

/// The bits of each slot.
pub(crate) fn bits_of_slots(
    alloc: Global,
    schedule: &Schedule,
    times: &Timetable,
) -> Result<SlotBits, AllocError>
    requires accepted { IsAccepted schedule.now }
    requires times { times.now ≡ times_of schedule.now }
    ensures { IfOk result
        (λ b. b ≡ map (bits_of_slot schedule.now) (range_with_len 0 (last_slot schedule.now + 1))) }
{
    let mut bits = SlotBits::new(alloc);
    for slot in 0..times.slots() {
        push_slot(&mut bits, alloc, schedule, times, slot)?;
    }
    Ok(bits)
}

/// The bits of the slot before; before slot 0 there are none.
fn bits_before(bits: &SlotBits, slot: u32) -> &[Bit]
    requires { slot < length bits.now }
    ensures { bits_of result.now ≡ before_slot bits.now slot }
{
    if slot == 0 {
        return &[];
    }
    bits.of_slot(slot - 1)
}

/// A slot of a schedule, with its bits and those of the slot before.
fn view_of<'a>(
    schedule: &'a Schedule,
    times: &'a Timetable,
    bits: &'a SlotBits,
    slot: u32,
) -> SlotView<'a>
    requires accepted { IsAccepted schedule.now }
    requires times { times.now ≡ times_of schedule.now }
    requires bits { bits.now
        ≡ map (bits_of_slot schedule.now) (range_with_len 0 (last_slot schedule.now + 1)) }
    requires slot { slot < length times.now.inits }
    ensures { result ≡ record { schedule = schedule.now; slot = slot } }
{
    let before = bits_before(bits, slot);
    SlotView::new(schedule, times, slot, before, bits.of_slot(slot))
}

/// All detectors, in the order of their numbers.
pub(crate) fn detectors(
    alloc: Global,
    schedule: &Schedule,
    times: &Timetable,
    bits: &SlotBits,
) -> Result<Vec<Detector>, AllocError>
    requires accepted { IsAccepted schedule.now }
    requires times { times.now ≡ times_of schedule.now }
    requires bits { bits.now
        ≡ map (bits_of_slot schedule.now) (range_with_len 0 (last_slot schedule.now + 1)) }
    ensures { IfOk result (λ v. v.items ≡ map (placed_detector schedule.now)
        (detectors schedule.now)) }
{
    let mut detectors = Vec::new(alloc);
    for slot in 0..times.slots() {
        let view = view_of(schedule, times, bits, slot);
        push_detectors(&mut detectors, alloc, &view)?;
    }
    Ok(detectors)
}
