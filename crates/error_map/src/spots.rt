//! Detectors by where they stand.
ghost use Rattle.std.specs.Prelude.{◌≡◌, ◌≤◌, IfOk, Some, true};
ghost use Rattle.surface_model.specs.Limits.{most_slots};
ghost use Rattle.error_map.specs.Ends.{AreInOrder, IsCut, is_earlier};
ghost use Rattle.error_map.specs.Spots.{is_at, number_at};

use measure_map::{Detector, MeasureMap};
use slot_bits::Corner;
use std::alloc::{AllocError, Global};
use std::marker::Model;

/// The rows and columns of corners for which there is a first guess.
const SIDE: u32 = 256;

/// The detectors of a map, by their slots and corners.
pub(crate) struct Spots<'a> {
    map: &'a MeasureMap,
    /// For each corner where its detector stands among those of one of the slots, in the middle.
    /// Most slots are like it, so a search looks there first.
    places: Vec<u32>,
}

impl<'a> Drop for Spots<'a> {
    fn drop(self) {
        let Spots { map: _, places: _ } = self;
    }
}

impl<'a> Model for Spots<'a> {
    ghost use Rattle.measure_map.specs.Placed.{Placed};

    ghost Value = { Placed };

    ghost view = { λ s. s.map.now };
}

impl<'a> Spots<'a> {
    /// Those of a map.
    pub(crate) fn new(alloc: Global, map: &'a MeasureMap) -> Result<Spots<'a>, AllocError>
        ensures { IfOk result (λ s. s ≡ map.now) }
    {
        let places = places_of(alloc, middle_of(map))?;
        Ok(Spots { map, places })
    }

    /// The map.
    pub(crate) fn map(&self) -> &MeasureMap
        ensures { result.now ≡ self.now }
    {
        self.map
    }

    /// The number of the detector at a corner in a slot.
    pub(crate) fn number_at(&self, slot: u32, corner: Corner) -> Option<u32>
        requires { slot ≤ most_slots }
        ensures { result
            ≡ number_at self.now.detectors (record { slot = slot; corner = corner }) }
    {
        self.map.is_map();
        let guess = self.guess(slot, corner);
        if is_number(self.map.detectors(), guess, slot, corner) {
            return Some(guess);
        }
        number_by_halves(self.map, slot, corner)
    }

    /// The number that it has if the slot is like the one in the middle.
    fn guess(&self, slot: u32, corner: Corner) -> u32 {
        let first = self.map.first_detector(slot);
        let place = index_of(corner).and_then(|at| self.places.get(at));
        first.saturating_add(*place.unwrap_or(&0))
    }
}

/// The detectors of the slot in the middle.
fn middle_of(map: &MeasureMap) -> &[Detector] {
    let slot = map.slots() / 2;
    if slot >= map.slots() {
        return &[];
    }
    map.detectors_of_slot(slot)
}

/// Where a corner stands in a list of all those whose row and column are below 256.
fn index_of(corner: Corner) -> Option<usize> {
    let Corner { row, col } = corner;
    if row >= SIDE || col >= SIDE {
        return None;
    }
    Some((row * SIDE + col) as usize)
}

/// For each corner whose row and column are below 256 its place among these detectors, where it is
/// one of theirs.
fn places_of(alloc: Global, detectors: &[Detector]) -> Result<Vec<u32>, AllocError> {
    let mut places = vec![in alloc; 0; (SIDE * SIDE) as usize]?;
    let mut place: u32 = 0;
    for detector in detectors {
        note_place(&mut places, detector.corner(), place);
        place = place.saturating_add(1);
    }
    Ok(places)
}

/// Writes a corner's place to the list.
fn note_place(places: &mut Vec<u32>, corner: Corner, place: u32) {
    let Some(at) = index_of(corner) else {
        return;
    };
    if at < places.len() {
        places[at] = place;
    }
}

/// Whether this is the number of the detector at a corner in a slot.
fn is_number(detectors: &[Detector], number: u32, slot: u32, corner: Corner) -> bool
    requires { AreInOrder detectors.now }
    ensures { result ≡ true →
        number_at detectors.now (record { slot = slot; corner = corner }) ≡ Some number }
{
    if number as usize >= detectors.len() {
        return false;
    }
    is_at(&detectors[number as usize], slot, corner)
}

/// The number of the detector at a corner in a slot: a search by halves among those of the slot.
fn number_by_halves(map: &MeasureMap, slot: u32, corner: Corner) -> Option<u32>
    requires { slot ≤ most_slots }
    ensures { result ≡ number_at map.now.detectors (record { slot = slot; corner = corner }) }
{
    map.is_map();
    let detectors = map.detectors();
    let first = map.first_detector(slot) as usize;
    let end = map.first_detector(slot + 1) as usize;
    let place = earlier(detectors, first, end, slot, corner);
    if place < detectors.len() && is_at(&detectors[place], slot, corner) {
        Some(place as u32)
    } else {
        None
    }
}

/// Whether a detector stands before a slot's corner.
fn is_earlier(detector: &Detector, slot: u32, corner: Corner) -> bool
    ensures { result ≡ is_earlier (record { slot = slot; corner = corner }) detector.now }
{
    let (own, at) = (detector.tag().slot, detector.corner());
    if own != slot {
        return own < slot;
    }
    if at.row != corner.row {
        return at.row < corner.row;
    }
    at.col < corner.col
}

/// Whether a detector stands at a slot's corner.
fn is_at(detector: &Detector, slot: u32, corner: Corner) -> bool
    ensures { result ≡ is_at (record { slot = slot; corner = corner }) detector.now }
{
    let (own, at) = (detector.tag().slot, detector.corner());
    own == slot && at.row == corner.row && at.col == corner.col
}

/// How many detectors stand before a slot's corner, at least and at most these many: a search by
/// halves.
fn earlier(detectors: &[Detector], least: usize, most: usize, slot: u32, corner: Corner) -> usize
    requires order { AreInOrder detectors.now }
    requires cut { IsCut detectors.now (record { slot = slot; corner = corner }) least most }
    ensures { IsCut detectors.now (record { slot = slot; corner = corner }) result result }
{
    let mut low = least;
    let mut high = most;
    while low < high {
        let middle = low + (high - low) / 2;
        if is_earlier(&detectors[middle], slot, corner) {
            low = middle + 1;
        } else {
            high = middle;
        }
    }
    low
}
