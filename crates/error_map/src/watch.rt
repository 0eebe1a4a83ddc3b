//! The observables by the places that their bits speak of.
ghost use Rattle.std.specs.Prelude.{◌^◌, ◌≡◌, ◌<◌, ◌≤◌, ◌+◌, ◌++◌, All, IfOk, OnOk, flat_map, length, map};
ghost use Rattle.slot_bits.specs.Seen.{bit_of};
ghost use Rattle.error_map.specs.Keys.{AreKeys};
ghost use Rattle.error_map.specs.Watched.{IsWatch, bit_keys, count_of, first_of, region_near};

use crate::keys::{Key, beginnings, distinct, push_region};
use measure_map::MeasureMap;
use patch_layout::Region;
use slot_bits::{Bit, Corner, Qubit};
use std::alloc::{AllocError, Global};
use std::marker::Model;

/// The observables of a map by the places that their bits speak of: the place of a qubit that is
/// read, and those that the corner of an outcome covers. Each place stands with the number of each
/// observable that speaks of it, by place and then by number.
#[derive(Drop)]
pub(crate) struct Watch {
    keys: Vec<Key>,
    /// Where searches begin.
    near: Vec<usize>,
}

impl Model for Watch {
    ghost use Rattle.std.specs.Prelude.{List};
    ghost use Rattle.error_map.specs.Keys.{AreKeys};
    ghost use Rattle.error_map.specs.declared.keys.Key.{Key as PlaceKey};

    ghost Value = { List PlaceKey };

    ghost view = { λ w. w.keys.items };

    ghost invariant = { λ w. AreKeys w.keys.items };
}

impl Watch {
    pub(crate) fn new(alloc: Global, map: &MeasureMap) -> Result<Watch, AllocError>
        ensures { IfOk result (IsWatch map.now) }
    {
        map.is_map();
        let observables = map.observables();
        let mut keys = Vec::new(alloc);
        for number in 0..observables.len() {
            let observable = &observables[number];
            let line = map.bits_of_slot(observable.slot);
            push_bits(&mut keys, line, &observable.places, number as u32)?;
        }
        let keys = distinct(keys);
        let near = beginnings(alloc, &keys)?;
        Ok(Watch { keys, near })
    }

    /// Where searches among the places begin.
    pub(crate) fn near(&self) -> &[usize] {
        self.near.as_slice()
    }

    /// The places with their observables.
    pub(crate) fn keys(&self) -> &[Key]
        ensures keys { result.now ≡ self.now }
        ensures shaped { AreKeys result.now }
    {
        self.keys.as_slice()
    }
}

/// The first of a number and the one before it, where there is one, and how many they are.
fn reach(at: u32) -> (u32, u32)
    ensures first { result.0 ≡ first_of at }
    ensures count { result.1 ≡ count_of at }
    ensures end { result.0 + result.1 ≡ at + 1 }
{
    if at == 0 { (0, 1) } else { (at - 1, 2) }
}

/// The places that a bit speaks of.
fn region_near(bit: Bit) -> Region
    ensures region { result ≡ region_near (bit_of bit) }
    ensures rows { result.row + result.height ≤ 2 ^ 32 }
    ensures columns { result.column + result.width ≤ 2 ^ 32 }
{
    match bit {
        Bit::Readout(Qubit { row, col }) => Region {
            row,
            col,
            height: 1,
            width: 1,
        },
        Bit::Outcome(Corner { row, col }) => {
            let (row, height) = reach(row);
            let (col, width) = reach(col);
            Region {
                row,
                col,
                height,
                width,
            }
        }
    }
}

/// Adds the places of an observable's bits.
fn push_bits(
    keys: &mut Vec<Key>,
    line: &[Bit],
    places: &[u32],
    number: u32,
) -> Result<(), AllocError>
    requires { All (λ k. k < length line.now) places.now }
    ensures { OnOk result (keys.new.items ≡ keys.old.items
        ++ flat_map (bit_keys number (map bit_of line.now)) places.now) }
{
    for place in places {
        push_region(keys, region_near(line[*place as usize]), number)?;
    }
    Ok(())
}
