//! Releases that are put before the row of their operation's slot.
ghost use Rattle.std.specs.Prelude.{◌≡◌, ◌≢◌, ◌<◌, ◌≤◌, IsErrOf, IsNone, IsSome, OnOk, false, length, map, true};
ghost use Rattle.port_io.specs.Port.{Rose};
ghost use Rattle.port_io.specs.Traffic.{KeepsCounts};
ghost use Rattle.window_model.specs.Decoder.{operation_at};
ghost use Rattle.report_model.specs.Tasks.{HasTask};
ghost use Rattle.window_setting.specs.Settings.{IsSetting};
ghost use Rattle.decode_rounds.specs.Seats.{HasTold, IsAtSlot};
ghost use Rattle.window_table.specs.Readings.{AreTold, told_at};

use crate::bench::{Bench, Seat};
use crate::releases::put_one;
use decode_workers::{Gate, WorkEnd, help_until};
use port_io::Port;
use predictor::Predictor;
use run_rounds::PutError;
use std::sync::Wait;
use window_table::NamesSetting;

/// Puts the line of each operation of the next slot, once it is released. While it waits it
/// decodes.
///
/// An error comes from the first put that fails, or from want of memory, here or at the table.
pub(crate) fn tell_due<R: Wait, P: Port, Q: Predictor, Z: NamesSetting, G: Gate>(
    bench: &Bench<'_, R, Q, Z, G>,
    port: &mut P,
    seat: &mut Seat<'_, Z>,
    slot: u32,
) -> Result<(), PutError>
    requires task { HasTask seat.old.rows.schedule Z.setting }
    requires setting { IsSetting Z.setting }
    requires slot { slot ≡ seat.old.rows.slot }
    requires at_slot { IsAtSlot Z.setting seat.old.rows seat.old.readings }
    ensures rows { seat.new.rows ≡ seat.old.rows }
    ensures told { OnOk result (AreTold Z.setting seat.new.readings slot) }
    ensures has { HasTold Z.setting seat.old.rows seat.old.readings seat.new.readings
        (P.left port.old) (P.left port.new) (P.tape port.old) (P.tape port.new) result }
    ensures left { P.left port.new ≡ P.left port.old }
    ensures fault { IsErrOf result PutError.WriteFault →
        Rose (P.write_faults port.old) (P.write_faults port.new) }
    ensures counts { KeepsCounts P.Port port.old port.new }
{
    for op in 0..operations(seat) {
        tell_where_due(bench, port, seat, slot, op)?;
    }
    Ok(())
}

/// How many operations there are.
fn operations<Z: NamesSetting>(seat: &Seat<'_, Z>) -> u32
    requires task { HasTask seat.now.rows.schedule Z.setting }
    requires setting { IsSetting Z.setting }
    ensures { result ≡ length Z.setting.operations }
{
    seat.rows.conds().len() as u32
}

/// Puts the line of an operation, if it is of this slot or an earlier one and hasn't been told.
fn tell_where_due<R: Wait, P: Port, Q: Predictor, Z: NamesSetting, G: Gate>(
    bench: &Bench<'_, R, Q, Z, G>,
    port: &mut P,
    seat: &mut Seat<'_, Z>,
    slot: u32,
    op: u32,
) -> Result<(), PutError>
    requires task { HasTask seat.old.rows.schedule Z.setting }
    requires slot { slot ≡ seat.old.rows.slot }
    requires at_slot { IsAtSlot Z.setting seat.old.rows seat.old.readings }
    requires in_range { op < length Z.setting.operations }
    ensures rows { seat.new.rows ≡ seat.old.rows }
    ensures told { OnOk result ((operation_at Z.setting op).slot ≤ slot →
        IsSome (told_at seat.new.readings op)) }
    ensures has { HasTold Z.setting seat.old.rows seat.old.readings seat.new.readings
        (P.left port.old) (P.left port.new) (P.tape port.old) (P.tape port.new) result }
    ensures left { P.left port.new ≡ P.left port.old }
    ensures fault { IsErrOf result PutError.WriteFault →
        Rose (P.write_faults port.old) (P.write_faults port.new) }
    ensures counts { KeepsCounts P.Port port.old port.new }
{
    if !is_due(seat, slot, op) {
        return Ok(());
    }
    tell(bench, port, seat, op)
}

/// Whether an operation is of this slot or an earlier one and hasn't been told.
fn is_due<Z: NamesSetting>(seat: &Seat<'_, Z>, slot: u32, op: u32) -> bool
    requires task { HasTask seat.now.rows.schedule Z.setting }
    requires in_range { op < length Z.setting.operations }
    ensures untold { result ≡ true → IsNone (told_at seat.now.readings op) }
    ensures no { result ≡ false → (operation_at Z.setting op).slot ≤ slot →
        IsSome (told_at seat.now.readings op) }
{
    let cond = &seat.rows.conds()[op as usize];
    cond.slot <= slot && seat.readings.told_of(op).is_none()
}

/// Decodes until an operation is released, and puts its line.
fn tell<R: Wait, P: Port, Q: Predictor, Z: NamesSetting, G: Gate>(
    bench: &Bench<'_, R, Q, Z, G>,
    port: &mut P,
    seat: &mut Seat<'_, Z>,
    op: u32,
) -> Result<(), PutError>
    requires task { HasTask seat.old.rows.schedule Z.setting }
    requires at_slot { IsAtSlot Z.setting seat.old.rows seat.old.readings }
    requires in_range { op < length Z.setting.operations }
    requires untold { IsNone (told_at seat.old.readings op) }
    ensures rows { seat.new.rows ≡ seat.old.rows }
    ensures told { OnOk result (IsSome (told_at seat.new.readings op)) }
    ensures has { HasTold Z.setting seat.old.rows seat.old.readings seat.new.readings
        (P.left port.old) (P.left port.new) (P.tape port.old) (P.tape port.new) result }
    ensures left { P.left port.new ≡ P.left port.old }
    ensures fault { IsErrOf result PutError.WriteFault →
        Rose (P.write_faults port.old) (P.write_faults port.new) }
    ensures counts { KeepsCounts P.Port port.old port.new }
{
    seat.readings.is_reader();
    if let WorkEnd::Memory = help_until(bench.rt, bench.table, bench.gate, &mut seat.helper, op) {
        return Err(PutError::Memory);
    }
    let bit = bench.table.told_as(bench.rt, &mut seat.readings, op);
    put_one(bench.alloc, port, seat.rows.conds(), op, bit)
}
