//! The places of a window's detectors among them, by their numbers.
ghost use Rattle.std.specs.Prelude.{◌≡◌, ◌≤◌, ◌<◌, ◌==◌, ◌&&◌, All, IfSome, length, nat_lt, slice_index};
ghost use Rattle.std.specs.List.Sorted.{IsStrictlyIncreasing};
ghost use Rattle.graph_model.specs.Limits.{most_places};
ghost use Rattle.window_model.specs.Parts.{place_of};
ghost use Rattle.boundary_fold.specs.Folds.{second_place};
ghost use Rattle.boundary_fold.specs.Located.{HasPlaces};

use std::marker::Model;

/// A window's detectors, ascending, with a table that has at the number of each its place. What the
/// table has at other numbers says nothing, so that one table serves all windows.
#[derive(Drop)]
pub(crate) struct LocatedDetectors<'a> {
    detectors: &'a [u32],
    table: &'a [u32],
}

impl<'a> Model for LocatedDetectors<'a> {
    ghost use Rattle.std.specs.Prelude.{length};
    ghost use Rattle.boundary_fold.specs.Located.{HasPlaces, Located};

    ghost Value = { Located };

    ghost view = { λ l. record { detectors = l.detectors.now; vertices = length l.table.now } };

    ghost invariant = { λ l. HasPlaces l.detectors.now l.table.now };
}

impl<'a> LocatedDetectors<'a> {
    /// The detectors with this table.
    pub(crate) fn new(detectors: &'a [u32], table: &'a [u32]) -> LocatedDetectors<'a>
        requires { HasPlaces detectors.now table.now }
        ensures { result ≡ record { detectors = detectors.now; vertices = length table.now } }
    {
        LocatedDetectors { detectors, table }
    }

    /// Where a detector stands in the list.
    pub(crate) fn place_of(&self, detector: u32) -> Option<u32>
        requires { detector < self.now.vertices }
        ensures { result ≡ place_of self.now.detectors detector }
    {
        place_in(self.detectors, self.table, detector)
    }

    /// Where an edge's second end stands in the list.
    pub(crate) fn place_of_second(&self, second: Option<u32>) -> Option<u32>
        requires { IfSome second (λ v. v < self.now.vertices) }
        ensures { result ≡ second_place self.now.detectors second }
    {
        match second {
            Some(detector) => self.place_of(detector),
            None => None,
        }
    }
}

/// Where a detector stands in the list: at the place that the table has, or nowhere.
fn place_in(detectors: &[u32], table: &[u32], detector: u32) -> Option<u32>
    requires places { HasPlaces detectors.now table.now }
    requires within { detector < length table.now }
    ensures { result ≡ place_of detectors.now detector }
{
    let place = table[detector as usize];
    if is_at(detectors, place, detector) {
        Some(place)
    } else {
        None
    }
}

/// Whether the detector stands at this place of the list.
fn is_at(detectors: &[u32], place: u32, detector: u32) -> bool
    ensures { result ≡ (nat_lt place (length detectors.now)
        && slice_index detectors.now place == detector) }
{
    (place as usize) < detectors.len() && detectors[place as usize] == detector
}

/// Writes to a table the place of each of the detectors, at its number.
pub(crate) fn note_places(detectors: &[u32], table: &mut Vec<u32>)
    requires rising { IsStrictlyIncreasing detectors.now }
    requires few { length detectors.now ≤ most_places }
    requires below { All (λ v. v < length table.old.items) detectors.now }
    ensures long { length table.new.items ≡ length table.old.items }
    ensures places { HasPlaces detectors.now table.new.items }
{
    for place in 0..detectors.len() {
        table[detectors[place] as usize] = place as u32;
    }
}
