//! The detectors of a slot.
ghost use Rattle.std.specs.Prelude.{◌≡◌, ◌++◌, ◌∷◌, [], if◌then◌else◌, length, map, option_map, slice_get, IfOk, OnOk, Some};
ghost use Rattle.std.specs.List.{filter_map};
ghost use Rattle.surface_model.specs.Layout.{board, covered, covered_in};
ghost use Rattle.surface_model.specs.Measurements.{bits_of_slot, detector_at};
ghost use Rattle.measure_map.specs.Placed.{detectors_of, placed_detector};
ghost use Rattle.slot_bits.specs.Lines.{bits_before};
ghost use Rattle.measure_map.specs.Slots.{IsQuietAfter, found_places, is_watched, places_round};
ghost use Rattle.slot_bits.specs.Seen.{bit_of};

use crate::slot_view::SlotView;
use crate::types::{Detector, DetectorKind, FoundDetector};
use slot_bits::{Bit, Corner, Qubit};
use std::alloc::{AllocError, Global};

/// Adds the place of the qubit's readout, if the slot has it.
fn push_readout(
    places: &mut Vec<(u32, u32)>,
    view: &SlotView<'_>,
    qubit: Qubit,
) -> Result<(), AllocError>
    ensures { OnOk result (places.new.items ≡ places.old.items ++ found_places view.now.slot
        (bits_of_slot view.now.schedule view.now.slot) (qubit ∷ [])) }
{
    if let Some(place) = view.place_of(&Bit::Readout(qubit)) {
        places.push((view.slot(), place))?;
    }
    Ok(())
}

/// Adds the places of the readouts of a row round a corner in this column.
fn push_row(
    places: &mut Vec<(u32, u32)>,
    view: &SlotView<'_>,
    row: u32,
    col: u32,
) -> Result<(), AllocError>
    ensures { OnOk result (places.new.items ≡ places.old.items ++ found_places view.now.slot
        (bits_of_slot view.now.schedule view.now.slot) (covered_in row col)) }
{
    if col > 0 {
        push_readout(places, view, Qubit { row, col: col - 1 })?;
    }
    push_readout(places, view, Qubit { row, col })
}

/// Adds the places of the readouts round a corner.
fn push_readouts(
    places: &mut Vec<(u32, u32)>,
    view: &SlotView<'_>,
    corner: Corner,
) -> Result<(), AllocError>
    ensures { OnOk result (places.new.items ≡ places.old.items ++ found_places view.now.slot
        (bits_of_slot view.now.schedule view.now.slot) (covered corner)) }
{
    if corner.row == 0 {
        return push_row(places, view, 0, corner.col);
    }
    push_row(places, view, corner.row - 1, corner.col)?;
    push_row(places, view, corner.row, corner.col)
}

/// Whether there is a detector at a corner.
fn is_watched(view: &SlotView<'_>, corner: Corner) -> bool
    ensures { result ≡ is_watched view.now.schedule view.now.slot corner }
{
    view.is_accepted();
    let now = view.place_of(&Bit::Outcome(corner)).is_some();
    let earlier = view.place_before(&Bit::Outcome(corner)).is_some();
    if now {
        earlier || view.is_prepared(corner)
    } else {
        earlier && view.is_finished(corner)
    }
}

/// The places of a corner's outcomes in the slot and in the one before, and of the readouts round
/// it.
fn places_round(
    alloc: Global,
    view: &SlotView<'_>,
    corner: Corner,
) -> Result<Vec<(u32, u32)>, AllocError>
    ensures { IfOk result (λ v. v.items
        ≡ places_round view.now.slot (bits_before view.now.schedule view.now.slot)
        (bits_of_slot view.now.schedule view.now.slot) corner) }
{
    let slot = view.slot();
    let mut places = Vec::new(alloc);
    if let Some(place) = view.place_of(&Bit::Outcome(corner)) {
        places.push((slot, place))?;
    }
    if let Some(place) = view.place_before(&Bit::Outcome(corner)) {
        places.push((slot - 1, place))?;
    }
    push_readouts(&mut places, view, corner)?;
    Ok(places)
}

/// The detector at a corner, if there is one.
fn detector_at(
    alloc: Global,
    view: &SlotView<'_>,
    corner: Corner,
) -> Result<Option<Detector>, AllocError>
    ensures { IfOk result (λ o. o ≡ option_map (placed_detector view.now.schedule)
        (detector_at view.now.schedule view.now.slot corner)) }
{
    view.is_accepted();
    if !is_watched(view, corner) {
        return Ok(None);
    }
    let bits = places_round(alloc, view, corner)?;
    let tag = view.tag_of(corner);
    let found = Box::new(alloc, FoundDetector { tag, corner, bits })?;
    let kind = DetectorKind::Found(found);
    Ok(Some(Detector { kind }))
}

/// Adds the detector of a bit's corner, if it is an outcome whose corner has one.
fn push_detector(
    detectors: &mut Vec<Detector>,
    alloc: Global,
    view: &SlotView<'_>,
    bit: Bit,
) -> Result<(), AllocError>
    ensures { OnOk result (detectors.new.items ≡ detectors.old.items
        ++ detectors_of view.now.schedule view.now.slot (bit_of bit)) }
{
    let Bit::Outcome(corner) = bit else {
        return Ok(());
    };
    if let Some(detector) = detector_at(alloc, view, corner)? {
        detectors.push(detector)?;
    }
    Ok(())
}

/// Adds the detectors of a slot in which something begins or ends.
fn push_found(
    detectors: &mut Vec<Detector>,
    alloc: Global,
    view: &SlotView<'_>,
) -> Result<(), AllocError>
    ensures { OnOk result (detectors.new.items ≡ detectors.old.items
        ++ map (placed_detector view.now.schedule)
        (filter_map (detector_at view.now.schedule view.now.slot) (board view.now.schedule))) }
{
    view.is_accepted();
    let bits = view.all_bits(alloc)?;
    for bit in &bits {
        push_detector(detectors, alloc, view, *bit)?;
    }
    Ok(())
}

/// Adds the detector of the bit at this place of a slot in which nothing begins or ends: it is the
/// outcome of a check that goes on, and stands at the same place in the slot before.
fn push_lasting(
    detectors: &mut Vec<Detector>,
    view: &SlotView<'_>,
    place: u32,
    bit: Bit,
) -> Result<(), AllocError>
    requires quiet { IsQuietAfter view.now.schedule view.now.slot }
    requires bit { slice_get (bits_of_slot view.now.schedule view.now.slot) place
        ≡ Some (bit_of bit) }
    ensures { OnOk result (detectors.new.items ≡ detectors.old.items
        ++ detectors_of view.now.schedule view.now.slot (bit_of bit)) }
{
    view.is_accepted();
    let Bit::Outcome(corner) = bit else {
        return Ok(());
    };
    let tag = view.tag_of(corner);
    let kind = DetectorKind::Lasting { tag, corner, place };
    detectors.push(Detector { kind })?;
    Ok(())
}

/// Adds the detectors of a slot in which nothing begins or ends, with no search.
fn push_all_lasting(detectors: &mut Vec<Detector>, view: &SlotView<'_>) -> Result<(), AllocError>
    requires { IsQuietAfter view.now.schedule view.now.slot }
    ensures { OnOk result (detectors.new.items ≡ detectors.old.items
        ++ map (placed_detector view.now.schedule)
        (filter_map (detector_at view.now.schedule view.now.slot) (board view.now.schedule))) }
{
    view.is_accepted();
    for place in 0..view.width() {
        push_lasting(detectors, view, place, view.bit_at(place))?;
    }
    Ok(())
}

/// Adds the detectors of a slot, by row and then by column of their corners.
pub(crate) fn push_detectors(
    detectors: &mut Vec<Detector>,
    alloc: Global,
    view: &SlotView<'_>,
) -> Result<(), AllocError>
    ensures { OnOk result (detectors.new.items ≡ detectors.old.items
        ++ map (placed_detector view.now.schedule)
        (filter_map (detector_at view.now.schedule view.now.slot) (board view.now.schedule))) }
{
    if view.is_quiet() {
        push_all_lasting(detectors, view)
    } else {
        push_found(detectors, alloc, view)
    }
}

/// Whether a bit is an outcome whose corner has a detector.
fn is_detected(view: &SlotView<'_>, bit: Bit) -> bool
    ensures { (if result then 1 else 0)
        ≡ length (detectors_of view.now.schedule view.now.slot (bit_of bit)) }
{
    match bit {
        Bit::Outcome(corner) => is_watched(view, corner),
        Bit::Readout(_) => false,
    }
}

/// How many detectors a slot has.
pub(crate) fn count_detectors(alloc: Global, view: &SlotView<'_>) -> Result<u64, AllocError>
    ensures { IfOk result
        (λ n. n ≡ length (filter_map (detector_at view.now.schedule view.now.slot)
        (board view.now.schedule))) }
{
    view.is_accepted();
    let bits = view.all_bits(alloc)?;
    let mut count = 0;
    for bit in &bits {
        if is_detected(view, *bit) {
            count += 1;
        }
    }
    Ok(count)
}
