//! The values that a slot's row gives.
ghost use Rattle.std.specs.Prelude.{◌≡◌, ◌==◌, ◌+◌, ◌++◌, ◌∷◌, [], false, filter, map, replicate, slice_index_or, IfOk, OnOk};
ghost use Rattle.graph_model.specs.Parity.{parity};
ghost use Rattle.measure_map.specs.Placed.{IsFirstOf, PlacedDetector, slot_value};
ghost use Rattle.slot_bits.specs.Observed.{PlacedObservable};

use crate::types::{Detector, DetectorKind};
use detector_graph::Bits;
use slot_bits::Observable;
use std::alloc::{AllocError, Global};

/// The value at a place; past the end there is none.
fn value_at(bits: &Bits, at: u32) -> bool
    ensures { result ≡ slice_index_or bits.now at false }
{
    at < bits.len() && bits.get(at)
}

/// The value of a bit, by its slot and its place in that slot's row.
fn bit_value(slot: u32, before: &Bits, row: &Bits, place: (u32, u32)) -> bool
    ensures { result ≡ slot_value slot before.now row.now place }
{
    if place.0 == slot {
        value_at(row, place.1)
    } else {
        value_at(before, place.1)
    }
}

/// The parity of some bits.
fn parity_of(slot: u32, before: &Bits, row: &Bits, places: &[(u32, u32)]) -> bool
    ensures { result ≡ parity (slot_value slot before.now row.now) places.now }
{
    let mut odd = false;
    for place in places {
        odd ^= bit_value(slot, before, row, *place);
    }
    odd
}

/// The parity of a detector's bits.
fn detector_parity(slot: u32, before: &Bits, row: &Bits, detector: &Detector) -> bool
    ensures { result ≡ parity (slot_value slot before.now row.now) detector.now.bits }
{
    match &detector.kind {
        DetectorKind::Lasting {
            tag,
            corner: _,
            place,
        } => {
            let before_it = tag.slot.saturating_sub(1);
            let now = bit_value(slot, before, row, (tag.slot, *place));
            now ^ bit_value(slot, before, row, (before_it, *place))
        }
        DetectorKind::Found(found) => parity_of(slot, before, row, found.bits.as_slice()),
    }
}

/// The parity of some bits of a row.
fn row_parity(row: &Bits, places: &[u32]) -> bool
    ensures { result ≡ parity (λ k. slice_index_or row.now k false) places.now }
{
    let mut odd = false;
    for place in places {
        odd ^= value_at(row, *place);
    }
    odd
}

/// So many values, none of them true. More than a `u32` counts have no room.
fn zeros(alloc: Global, len: usize) -> Result<Bits, AllocError>
    ensures { IfOk result (λ b. b ≡ replicate len false) }
{
    let Ok(len) = u32::try_from(len) else {
        return Err(AllocError);
    };
    Bits::zeros(alloc, len)
}

/// The values of some detectors of a slot.
pub(crate) fn defects_of(
    alloc: Global,
    slot: u32,
    before: &Bits,
    row: &Bits,
    detectors: &[Detector],
) -> Result<Bits, AllocError>
    ensures { IfOk result
        (λ b. b ≡ map (λ (d : PlacedDetector). parity (slot_value slot before.now row.now) d.bits)
        detectors.now) }
{
    let mut bits = zeros(alloc, detectors.len())?;
    for at in 0..bits.len() {
        let detector = &detectors[at as usize];
        bits.set(at, detector_parity(slot, before, row, detector));
    }
    Ok(bits)
}

/// Those of some detectors that are of this slot, by the numbers of its first and of the next
/// slot's.
pub(crate) fn of_slot(detectors: &[Detector], slot: u32, first: u32, next: u32) -> &[Detector]
    requires first { IsFirstOf detectors.now slot first }
    requires next { IsFirstOf detectors.now (slot + 1) next }
    ensures { result.now ≡ filter (λ (d : PlacedDetector). d.tag.slot == slot) detectors.now }
{
    &detectors[first as usize..next as usize]
}

/// Adds the value of the observable, if it is of the slot.
fn push_raw(
    values: &mut Vec<bool>,
    slot: u32,
    row: &Bits,
    observable: &Observable,
) -> Result<(), AllocError>
    ensures { OnOk result (values.new.items ≡ values.old.items
        ++ map (λ (o : PlacedObservable). parity (λ k. slice_index_or row.now k false) o.places)
        (filter (λ (o : PlacedObservable). o.slot == slot) (observable.now ∷ []))) }
{
    if observable.slot == slot {
        values.push(row_parity(row, &observable.places))?;
    }
    Ok(())
}

/// The values of those of some observables that are of this slot.
pub(crate) fn raws_of(
    alloc: Global,
    slot: u32,
    row: &Bits,
    observables: &[Observable],
) -> Result<Vec<bool>, AllocError>
    ensures { IfOk result (λ v. v.items
        ≡ map (λ (o : PlacedObservable). parity (λ k. slice_index_or row.now k false) o.places)
        (filter (λ (o : PlacedObservable). o.slot == slot) observables.now)) }
{
    let mut values = Vec::new(alloc);
    for observable in observables {
        push_raw(&mut values, slot, row, observable)?;
    }
    Ok(values)
}

/// The values as bits.
pub(crate) fn bits_from(alloc: Global, values: &[bool]) -> Result<Bits, AllocError>
    ensures { IfOk result (λ b. b ≡ values.now) }
{
    let mut bits = zeros(alloc, values.len())?;
    for at in 0..bits.len() {
        bits.set(at, values[at as usize]);
    }
    Ok(bits)
}
