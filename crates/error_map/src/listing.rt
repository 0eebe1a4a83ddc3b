//! All mechanisms of a schedule.
ghost use Rattle.std.specs.Prelude.{◌≡◌, ◌<◌, ◌-◌, ◌++◌, ◌∷◌, [], option_to_list, IfOk, OnOk, length, map};
ghost use Rattle.surface_model.specs.Errors.{ReadoutError, OutcomeError, mechanisms, mechanisms_at, of_class};
ghost use Rattle.surface_model.specs.Accepted.{IsAccepted};
ghost use Rattle.measure_map.specs.Placed.{map_of};
ghost use Rattle.slot_bits.specs.Seen.{bit_of};
ghost use Rattle.timetable.specs.Times.{times_of};
ghost use Rattle.error_map.specs.Active.{active_at};
ghost use Rattle.error_map.specs.Lines.{mechanisms_with, outcome_place, outcome_places, readout_place, readout_places};
ghost use Rattle.error_map.specs.Seen.{class_of, mechanisms_of};

use crate::active::qubits_of;
use crate::types::{Class, Mechanism};
use measure_map::MeasureMap;
use schedule_reader::Schedule;
use schedule_rules::Program;
use slot_bits::{Bit, Corner, Qubit};
use std::alloc::{AllocError, Global};
use timetable::Timetable;

/// Adds an error of the bit, where it is a readout.
fn push_readout(list: &mut Vec<Mechanism>, slot: u32, bit: Bit) -> Result<(), AllocError>
    ensures { OnOk result (mechanisms_of list.new.items ≡ mechanisms_of list.old.items
        ++ of_class slot ReadoutError (option_to_list (readout_place bit))) }
{
    match bit {
        Bit::Readout(Qubit { row, col }) => push(list, slot, Class::Readout, row, col),
        Bit::Outcome(_) => Ok(()),
    }
}

/// Adds an error of the bit, where it is an outcome.
fn push_outcome(list: &mut Vec<Mechanism>, slot: u32, bit: Bit) -> Result<(), AllocError>
    ensures { OnOk result (mechanisms_of list.new.items ≡ mechanisms_of list.old.items
        ++ of_class slot OutcomeError (option_to_list (outcome_place bit))) }
{
    match bit {
        Bit::Outcome(Corner { row, col }) => push(list, slot, Class::Measurement, row, col),
        Bit::Readout(_) => Ok(()),
    }
}

fn push(
    list: &mut Vec<Mechanism>,
    slot: u32,
    class: Class,
    row: u32,
    col: u32,
) -> Result<(), AllocError>
    ensures { OnOk result (mechanisms_of list.new.items ≡ mechanisms_of list.old.items
        ++ of_class slot (class_of class) (record { row = row; column = col } ∷ [])) }
{
    list.push(Mechanism {
        slot,
        class,
        row,
        col,
    })?;
    Ok(())
}

/// Adds an error of each qubit that a slot reads.
fn push_readouts(list: &mut Vec<Mechanism>, slot: u32, bits: &[Bit]) -> Result<(), AllocError>
    ensures { OnOk result (mechanisms_of list.new.items ≡ mechanisms_of list.old.items
        ++ of_class slot ReadoutError (readout_places bits.now)) }
{
    for bit in bits {
        push_readout(list, slot, *bit)?;
    }
    Ok(())
}

/// Adds an error of each outcome of a slot.
fn push_outcomes(list: &mut Vec<Mechanism>, slot: u32, bits: &[Bit]) -> Result<(), AllocError>
    ensures { OnOk result (mechanisms_of list.new.items ≡ mechanisms_of list.old.items
        ++ of_class slot OutcomeError (outcome_places bits.now)) }
{
    for bit in bits {
        push_outcome(list, slot, *bit)?;
    }
    Ok(())
}

/// Adds a space error of each qubit.
fn push_space(
    list: &mut Vec<Mechanism>,
    slot: u32,
    class: Class,
    qubits: &[Qubit],
) -> Result<(), AllocError>
    ensures { OnOk result (mechanisms_of list.new.items ≡ mechanisms_of list.old.items
        ++ of_class slot (class_of class) qubits.now) }
{
    for qubit in qubits {
        list.push(Mechanism {
            slot,
            class,
            row: qubit.row,
            col: qubit.col,
        })?;
    }
    Ok(())
}

/// Adds the mechanisms of a slot, whose bits and whose active qubits are these.
fn push_slot(
    list: &mut Vec<Mechanism>,
    slot: u32,
    bits: &[Bit],
    qubits: &[Qubit],
) -> Result<(), AllocError>
    ensures { OnOk result (mechanisms_of list.new.items ≡ mechanisms_of list.old.items
        ++ mechanisms_with slot bits.now qubits.now) }
{
    push_readouts(list, slot, bits)?;
    push_space(list, slot, Class::SpaceX, qubits)?;
    push_space(list, slot, Class::SpaceZ, qubits)?;
    push_outcomes(list, slot, bits)
}

/// The active qubits of a slot: those of the slot before, where nothing begins or ends in it.
fn next_qubits(
    alloc: Global,
    schedule: &Schedule,
    timetable: &Timetable,
    slot: u32,
    before: Vec<Qubit>,
) -> Result<Vec<Qubit>, AllocError>
    requires accepted { IsAccepted schedule.now }
    requires times { timetable.now ≡ times_of schedule.now }
    requires slot { slot < length timetable.now.inits }
    requires before { 0 < slot → before.items ≡ active_at schedule.now (slot - 1) }
    ensures { IfOk result (λ v. v.items ≡ active_at schedule.now slot) }
{
    if slot > 0 && timetable.is_quiet(slot) {
        return Ok(before);
    }
    let regions = timetable.regions(alloc, schedule, slot)?;
    let qubits = qubits_of(alloc, &regions)?;
    Ok(qubits)
}

/// All mechanisms, by slot, then class, and then row and column. The map is that of this program.
pub fn mechanisms(
    alloc: Global,
    program: &Program,
    map: &MeasureMap,
) -> Result<Vec<Mechanism>, AllocError>
    requires { map.now ≡ map_of program.now }
    ensures { IfOk result (λ v. mechanisms_of v.items ≡ mechanisms program.now) }
{
    program.is_accepted();
    let schedule = program.schedule();
    let timetable = Timetable::new(alloc, program)?;
    let mut list = Vec::new(alloc);
    let mut qubits = Vec::new(alloc);
    for slot in 0..timetable.slots() {
        qubits = next_qubits(alloc, schedule, &timetable, slot, qubits)?;
        push_slot(&mut list, slot, map.bits_of_slot(slot), &qubits)?;
    }
    Ok(list)
}
