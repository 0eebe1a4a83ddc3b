//! The measurements that a mechanism changes.
ghost use Rattle.std.specs.Prelude.{◌≡◌, ◌<◌, ◌≤◌, ◌++◌, [], Contains, IfOk, OnOk, length, map, option_to_list, slice_index_or};
ghost use Rattle.patch_layout.specs.Seen.{most_coordinate};
ghost use Rattle.surface_model.specs.Accepted.{IsAccepted};
ghost use Rattle.surface_model.specs.Errors.{mechanisms};
ghost use Rattle.surface_model.specs.Layout.{last_slot};
ghost use Rattle.surface_model.specs.Limits.{last_named_slot};
ghost use Rattle.measure_map.specs.Placed.{map_of};
ghost use Rattle.slot_bits.specs.Seen.{bit_of, bits_of};
ghost use Rattle.error_map.specs.Changes.{changed_bits};
ghost use Rattle.error_map.specs.Seen.{error_in, mechanism_of};
ghost use Rattle.error_map.specs.Sees.{IsEffect, bits_near, changed_among, changed_place};

use crate::masks::sees;
use crate::readings::Readings;
use crate::types::{Effect, Mechanism, Wanted};
use measure_map::MeasureMap;
use schedule_reader::Schedule;
use schedule_rules::Program;
use slot_bits::{Bit, Corner, Qubit};
use std::alloc::{AllocError, Global};

/// The bits that an error at a place can change, in the order of a slot's bits: the readout of
/// the qubit, and the outcomes at the corners round it.
fn bits_near(row: u32, col: u32) -> [Bit; 5]
    requires { (row < most_coordinate) × (col < most_coordinate) }
    ensures { bits_of result ≡ bits_near (record { row = row; column = col }) }
{
    let (below, right) = (row + 1, col + 1);
    [
        Bit::Readout(Qubit { row, col }),
        Bit::Outcome(Corner { row, col }),
        Bit::Outcome(Corner { row, col: right }),
        Bit::Outcome(Corner { row: below, col }),
        Bit::Outcome(Corner {
            row: below,
            col: right,
        }),
    ]
}

/// The place of a bit that changes among the slot's, where it is one of them.
fn changed_place(map: &MeasureMap, effect: Effect, slot: u32, bit: &Bit) -> Option<u32>
    requires { slot < length map.now.lines }
    ensures { result ≡ changed_place effect slot (slice_index_or map.now.lines slot [])
        (bit_of bit.now) }
{
    if sees(effect, slot, *bit) {
        map.place_of(slot, bit)
    } else {
        None
    }
}

/// Adds a place in a slot to a list, where there is one.
fn push_place(bits: &mut Vec<(u32, u32)>, slot: u32, place: Option<u32>) -> Result<(), AllocError>
    ensures { OnOk result (bits.new.items ≡ bits.old.items
        ++ map (λ k. (slot, k)) (option_to_list place)) }
{
    if let Some(place) = place {
        bits.push((slot, place))?;
    }
    Ok(())
}

/// Adds the places in the slot of those of the bits that change.
fn push_changes(
    bits: &mut Vec<(u32, u32)>,
    map: &MeasureMap,
    effect: Effect,
    slot: u32,
    near: &[Bit],
) -> Result<(), AllocError>
    requires { slot < length map.now.lines }
    ensures { OnOk result (bits.new.items ≡ bits.old.items ++ changed_among effect slot
        (slice_index_or map.now.lines slot []) (bits_of near.now)) }
{
    for bit in near {
        push_place(bits, slot, changed_place(map, effect, slot, bit))?;
    }
    Ok(())
}

/// Which bits a mechanism changes, from the readings of its qubit alone.
fn effect_of(
    alloc: Global,
    schedule: &Schedule,
    last: u32,
    mechanism: Mechanism,
) -> Result<Effect, AllocError>
    requires accepted { IsAccepted schedule.now }
    requires last { (last ≡ last_slot schedule.now) × (last ≤ last_named_slot) }
    requires slot { mechanism.slot ≤ last }
    ensures mechanism { IfOk result (λ f. error_in f ≡ mechanism_of mechanism) }
    ensures effect { IfOk result (IsEffect schedule.now) }
{
    let wanted = Wanted::One(Qubit {
        row: mechanism.row,
        col: mechanism.col,
    });
    let readings = Readings::new(alloc, schedule, last, &wanted)?;
    let effect = readings.effect(mechanism);
    Ok(effect)
}

/// The bits that the mechanism changes, each by its slot and its place among that slot's, in that
/// order. The map is that of this program, and the mechanism one of its mechanisms.
pub fn flips(
    alloc: Global,
    program: &Program,
    map: &MeasureMap,
    mechanism: Mechanism,
) -> Result<Vec<(u32, u32)>, AllocError>
    requires made { map.now ≡ map_of program.now }
    requires known { Contains (mechanisms program.now) (mechanism_of mechanism) }
    ensures { IfOk result (λ v. v.items ≡ changed_bits program.now (mechanism_of mechanism)) }
{
    program.is_accepted();
    let last = program.last_slot();
    let effect = effect_of(alloc, program.schedule(), last, mechanism)?;
    let near = bits_near(mechanism.row, mechanism.col);
    let end = last.min(effect.last_slot()) + 1;
    let mut bits = Vec::new(alloc);
    for slot in mechanism.slot..end {
        push_changes(&mut bits, map, effect, slot, &near)?;
    }
    Ok(bits)
}
