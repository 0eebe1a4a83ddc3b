//! The detectors that a mechanism flips.
ghost use Rattle.std.specs.Prelude.{◌≡◌, ◌<◌, ◌≤◌, ◌+◌, ◌∷◌, [], List, ℕ, suc};
ghost use Rattle.std.specs.List.{cons_option, filter_map};
ghost use Rattle.patch_layout.specs.Seen.{most_coordinate};
ghost use Rattle.surface_model.specs.Layout.{Place};
ghost use Rattle.surface_model.specs.Limits.{last_named_slot};
ghost use Rattle.surface_laws.specs.LayoutLaws.{corners};
ghost use Rattle.error_map.specs.Ends.{first_two, found_in, has_basis};
ghost use Rattle.error_map.specs.Seen.{mechanism_of};
ghost use Rattle.error_map.specs.Spots.{ends_found, number_at};

use crate::spots::Spots;
use crate::types::{Class, Mechanism};
use patch_layout::{Basis, kind};
use slot_bits::{Corner, Qubit};

/// The first two of some detectors.
#[derive(Clone, Copy)]
pub(crate) enum Ends {
    None,
    One(u32),
    Two(u32, u32),
}

impl Ends {
    /// The one that was found, if there is one, and then these.
    fn after(self, found: Option<u32>) -> Ends
        ensures { (xs : List ℕ) → self ≡ first_two xs → result ≡ first_two (cons_option found xs) }
    {
        let Some(number) = found else {
            return self;
        };
        match self {
            Ends::None => Ends::One(number),
            Ends::One(next) | Ends::Two(next, _) => Ends::Two(number, next),
        }
    }
}

/// The detectors that a mechanism flips: at most two.
pub(crate) fn ends_of(spots: &Spots<'_>, mechanism: Mechanism) -> Ends
    requires { (mechanism.slot ≤ last_named_slot) × (mechanism.row < most_coordinate)
        × (mechanism.col < most_coordinate) }
    ensures { result ≡ first_two (ends_found spots.now.detectors (mechanism_of mechanism)) }
{
    let Mechanism {
        slot,
        class,
        row,
        col,
    } = mechanism;
    let qubit = Qubit { row, col };
    match class {
        Class::Readout => around(spots, slot, qubit, None),
        Class::SpaceX => around(spots, slot, qubit, Some(Basis::Z)),
        Class::SpaceZ => around(spots, slot, qubit, Some(Basis::X)),
        Class::Measurement => lasting(spots, slot, Corner { row, col }),
    }
}

/// The detectors of a slot at the corners round a qubit, or at those of one basis.
fn around(spots: &Spots<'_>, slot: u32, qubit: Qubit, basis: Option<Basis>) -> Ends
    requires { (slot ≤ last_named_slot) × (qubit.row < most_coordinate)
        × (qubit.column < most_coordinate) }
    ensures { result ≡ first_two (found_in spots.now.detectors slot basis (corners qubit)) }
{
    let Qubit { row, col } = qubit;
    let (below, right) = (row + 1, col + 1);
    let last = Corner {
        row: below,
        col: right,
    };
    let ends = with_corner(spots, slot, last, basis, Ends::None);
    let ends = with_corner(spots, slot, Corner { row: below, col }, basis, ends);
    let ends = with_corner(spots, slot, Corner { row, col: right }, basis, ends);
    with_corner(spots, slot, Corner { row, col }, basis, ends)
}

/// The ends with the detector at a corner before them, where the corner is of the basis and has
/// one.
fn with_corner(
    spots: &Spots<'_>,
    slot: u32,
    corner: Corner,
    basis: Option<Basis>,
    later: Ends,
) -> Ends
    requires { (slot ≤ last_named_slot) × (corner.row ≤ most_coordinate)
        × (corner.column ≤ most_coordinate) }
    ensures { (cs : List Place) → later ≡ first_two (found_in spots.now.detectors slot basis cs) →
        result ≡ first_two (found_in spots.now.detectors slot basis (corner ∷ cs)) }
{
    if has_basis(corner, basis) {
        later.after(spots.number_at(slot, corner))
    } else {
        later
    }
}

/// The detectors at a corner in a slot and in the next.
fn lasting(spots: &Spots<'_>, slot: u32, corner: Corner) -> Ends
    requires { slot ≤ last_named_slot }
    ensures { result
        ≡ first_two (filter_map (number_at spots.now.detectors) (record {
          slot = slot;
          corner = corner;
        } ∷ record { slot = suc slot; corner = corner } ∷ [])) }
{
    let ends = Ends::None.after(spots.number_at(slot + 1, corner));
    ends.after(spots.number_at(slot, corner))
}

/// Whether the corner's check has the basis, where one is given.
fn has_basis(corner: Corner, basis: Option<Basis>) -> bool
    requires { (corner.row ≤ most_coordinate) × (corner.column ≤ most_coordinate) }
    ensures { result ≡ has_basis corner basis }
{
    match basis {
        Some(basis) => kind(corner) == basis,
        None => true,
    }
}
