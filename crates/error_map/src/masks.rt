//! The observables that a mechanism flips.
ghost use Rattle.std.specs.Prelude.{◌≡◌, ◌<◌, ◌==◌, ◌&&◌, ◌++◌, ◌∷◌, [], if◌then◌else◌, All, Contains, IfOk, OnOk, length, map};
ghost use Rattle.graph_model.specs.Parity.{◌⊕◌, parity};
ghost use Rattle.surface_model.specs.Schedules.{Schedule};
ghost use Rattle.surface_model.specs.Measurements.{same_place};
ghost use Rattle.surface_model.specs.Errors.{is_outcome_of, is_readout_of, mechanisms, odd_places, watched};
ghost use Rattle.surface_model.specs.Accepted.{IsAccepted};
ghost use Rattle.measure_map.specs.Placed.{map_of};
ghost use Rattle.slot_bits.specs.Seen.{bit_of};
ghost use Rattle.error_map.specs.Seen.{error_in};
ghost use Rattle.error_map.specs.Sees.{IsEffect, class_sees, flips_observable, sees, sees_place, space_sees};
ghost use Rattle.error_map.specs.Watched.{IsWatch};

use crate::keys::{Key, first_from, number_at};
use crate::types::{Effect, SpaceError};
use crate::watch::Watch;
use measure_map::MeasureMap;
use patch_layout::{covers, kind};
use slot_bits::{Bit, Corner, Qubit};
use std::alloc::{AllocError, Global};

fn same_place(one: Qubit, other: Qubit) -> bool
    ensures { result ≡ same_place one other }
{
    one.row == other.row && one.col == other.col
}

/// Whether a bit of the slot sees a space error.
fn space_sees(error: SpaceError, slot: u32, bit: Bit) -> bool
    ensures { result ≡ space_sees error.basis error.slot (record {
      row = error.row;
      column = error.col;
    }) error.next error.shown slot (bit_of bit) }
{
    let (start, next) = (error.slot, error.next);
    let qubit = Qubit {
        row: error.row,
        col: error.col,
    };
    match bit {
        Bit::Outcome(corner) => {
            start <= slot && slot < next && kind(corner) == error.basis && covers(corner, qubit)
        }
        Bit::Readout(other) => same_place(other, qubit) && slot == next && error.shown,
    }
}

/// Whether the bit is the readout of the qubit.
fn is_readout(bit: Bit, qubit: Qubit) -> bool
    ensures { result ≡ is_readout_of qubit (bit_of bit) }
{
    match bit {
        Bit::Readout(other) => same_place(other, qubit),
        Bit::Outcome(_) => false,
    }
}

/// Whether the bit is the outcome of the check at this corner.
fn is_outcome(bit: Bit, corner: Corner) -> bool
    ensures { result ≡ is_outcome_of corner (bit_of bit) }
{
    match bit {
        Bit::Readout(_) => false,
        Bit::Outcome(other) => other.row == corner.row && other.col == corner.col,
    }
}

/// Whether the mechanism changes a bit of the slot.
pub(crate) fn sees(effect: Effect, slot: u32, bit: Bit) -> bool
    ensures { result ≡ sees effect slot (bit_of bit) }
{
    match effect {
        Effect::Readout {
            slot: start,
            row,
            col,
        } => slot == start && is_readout(bit, Qubit { row, col }),
        Effect::Outcome {
            slot: start,
            row,
            col,
        } => slot == start && is_outcome(bit, Corner { row, col }),
        Effect::Space(error) => space_sees(error, slot, bit),
    }
}

/// Whether an odd number of bits at these places among the slot's change.
fn is_odd(effect: Effect, slot: u32, line: &[Bit], places: &[u32]) -> bool
    requires { All (λ k. k < length line.now) places.now }
    ensures { result ≡ parity (sees_place effect slot (map bit_of line.now)) places.now }
{
    let mut odd = false;
    for place in places {
        odd = odd != sees(effect, slot, line[*place as usize]);
    }
    odd
}

/// Adds a number to a list, where it is to be kept.
fn push_if(numbers: &mut Vec<u16>, kept: bool, number: u16) -> Result<(), AllocError>
    ensures { OnOk result (numbers.new.items ≡ numbers.old.items
        ++ (if kept then number ∷ [] else [])) }
{
    if kept {
        numbers.push(number)?;
    }
    Ok(())
}

/// Adds the number of an observable, where the mechanism flips it.
fn push_observable(
    mask: &mut Vec<u16>,
    map: &MeasureMap,
    effect: Effect,
    number: u32,
) -> Result<(), AllocError>
    requires { number < length map.now.observables }
    ensures { (s : Schedule) → IsAccepted s → map.now ≡ map_of s →
        Contains (mechanisms s) (error_in effect) → IsEffect s effect →
        OnOk result (mask.new.items ≡ mask.old.items
        ++ (if flips_observable s (error_in effect) number then number ∷ [] else [])) }
{
    map.is_map();
    let observable = &map.observables()[number as usize];
    let slot = observable.slot;
    let odd = is_odd(effect, slot, map.bits_of_slot(slot), &observable.places);
    push_if(mask, odd, number as u16)
}

/// The numbers of the observables that the mechanism flips, ascending: some of those that speak of
/// its place.
pub(crate) fn mask(
    alloc: Global,
    map: &MeasureMap,
    watch: &Watch,
    effect: Effect,
) -> Result<Vec<u16>, AllocError>
    requires { IsWatch map.now watch.now }
    ensures { (s : Schedule) → IsAccepted s → map.now ≡ map_of s →
        Contains (mechanisms s) (error_in effect) → IsEffect s effect →
        IfOk result (λ v. v.items ≡ odd_places s (error_in effect) (watched s)) }
{
    let (row, col) = effect.place();
    let keys = watch.keys();
    let mut mask = Vec::new(alloc);
    let first = Key {
        row,
        col,
        number: 0,
    };
    let mut at = first_from(keys, watch.near(), &first);
    while let Some(number) = number_at(keys, at, row, col) {
        push_observable(&mut mask, map, effect, number)?;
        at += 1;
    }
    Ok(mask)
}
