//! The rows, read one after another and brought to the table.
ghost use Rattle.std.specs.Prelude.{◌≡◌, ◌≤◌, Bool, Err, IfErr, IsErrOf, List, OnOk, Option, true, ℕ};
ghost use Rattle.port_io.specs.Port.{Rose};
ghost use Rattle.port_io.specs.Traffic.{KeepsCounts};
ghost use Rattle.port_io.specs.declared.port.TapeByte.{TapeByte};
ghost use Rattle.surface_model.specs.Layout.{last_slot};
ghost use Rattle.report_model.specs.Tasks.{HasTask};
ghost use Rattle.window_setting.specs.Settings.{IsSetting};
ghost use Rattle.window_table.specs.Readings.{AreTold, no_readings};
ghost use Rattle.decode_rounds.specs.Courses.{HasNotBegun};
ghost use Rattle.decode_rounds.specs.Seats.{HasBrought, HasRead, HasStopped, IsAtSlot, IsSeated};
ghost use Rattle.decode_rounds.specs.Stops.{stop_of};

use crate::bench::{Bench, Seat};
use crate::telling::tell_due;
use decode_workers::{Gate, drain};
use port_io::Port;
use predictor::Predictor;
use run_rounds::PutError;
use std::sync::{Arc, Wait};
use syndrome_source::RowError;
use window_table::NamesSetting;

/// How the reading stopped.
#[derive(Clone, Copy)]
pub(crate) enum Stop {
    /// The rows have ended so, and not by want of memory.
    Rows(Result<(), RowError>),
    /// The run breaks off.
    Broken(PutError),
}

/// Reads the rows and closes the table. Where the rows have ended, it works first until nothing is
/// left to do.
pub(crate) fn read_and_close<R: Wait, P: Port, Q: Predictor, Z: NamesSetting, G: Gate>(
    bench: &Bench<'_, R, Q, Z, G>,
    port: &mut P,
    seat: &mut Seat<'_, Z>,
) -> Stop
    requires setting { IsSetting Z.setting }
    requires begun { HasNotBegun seat.old.rows Z.setting }
    requires none { seat.old.readings ≡ no_readings Z.setting }
    ensures read { HasRead Z.setting seat.old.rows.schedule result (P.left port.old)
        (P.left port.new) (P.tape port.old) (P.tape port.new) seat.new.readings }
    ensures schedule { seat.new.rows.schedule ≡ seat.old.rows.schedule }
    ensures fault { result ≡ Stop.Rows (Err RowError.ReadFault) →
        Rose (P.read_faults port.old) (P.read_faults port.new) }
    ensures write_fault { result ≡ Stop.Broken PutError.WriteFault →
        Rose (P.write_faults port.old) (P.write_faults port.new) }
    ensures counts { KeepsCounts P.Port port.old port.new }
{
    let stop = read_all(bench, port, seat);
    if let Stop::Rows(_) = stop {
        drain(bench.rt, bench.table, bench.gate, &mut seat.helper);
    }
    bench.table.close(bench.rt);
    stop
}

/// Reads the rows, each after the lines of the operations of its slot were put.
fn read_all<R: Wait, P: Port, Q: Predictor, Z: NamesSetting, G: Gate>(
    bench: &Bench<'_, R, Q, Z, G>,
    port: &mut P,
    seat: &mut Seat<'_, Z>,
) -> Stop
    requires setting { IsSetting Z.setting }
    requires begun { HasNotBegun seat.old.rows Z.setting }
    requires none { seat.old.readings ≡ no_readings Z.setting }
    ensures stopped { (input : List ℕ) → P.left port.old ≡ Some input →
        HasStopped Z.setting seat.old.rows.schedule result (P.left port.old) (P.left port.new)
        (P.tape port.old) (P.tape port.new) seat.new.readings }
    ensures schedule { seat.new.rows.schedule ≡ seat.old.rows.schedule }
    ensures fault { result ≡ Stop.Rows (Err RowError.ReadFault) →
        Rose (P.read_faults port.old) (P.read_faults port.new) }
    ensures write_fault { result ≡ Stop.Broken PutError.WriteFault →
        Rose (P.write_faults port.old) (P.write_faults port.new) }
    ensures counts { KeepsCounts P.Port port.old port.new }
{
    for slot in 0..seat.rows.slots() {
        if let Err(error) = tell_due(bench, port, seat, slot) {
            return Stop::Broken(error);
        }
        if let Err(error) = bring_next(bench, port, seat) {
            return stop_of(error);
        }
    }
    Stop::Rows(seat.rows.finish(port))
}

/// Reads the row of the next slot and brings it.
fn bring_next<R: Wait, P: Port, Q: Predictor, Z: NamesSetting, G: Gate>(
    bench: &Bench<'_, R, Q, Z, G>,
    port: &mut P,
    seat: &mut Seat<'_, Z>,
) -> Result<(), RowError>
    requires task { HasTask seat.old.rows.schedule Z.setting }
    requires within { seat.old.rows.slot ≤ last_slot seat.old.rows.schedule }
    requires at_slot { IsAtSlot Z.setting seat.old.rows seat.old.readings }
    requires told { AreTold Z.setting seat.old.readings seat.old.rows.slot }
    ensures brought { OnOk result (HasBrought Z.setting seat.old.rows seat.new.rows
        seat.old.readings seat.new.readings (P.left port.old) (P.left port.new)
        (P.tape port.old) (P.tape port.new)) }
    ensures stopped { IfErr result (λ error. (first : Option (List ℕ))
        (begin : Option (List TapeByte)) → IsSeated Z.setting seat.old.rows first
        (P.left port.old) begin (P.tape port.old) seat.old.readings → HasStopped Z.setting
        seat.old.rows.schedule (stop_of error) first (P.left port.new) begin (P.tape port.new)
        seat.new.readings) }
    ensures schedule { seat.new.rows.schedule ≡ seat.old.rows.schedule }
    ensures fault { IsErrOf result RowError.ReadFault →
        Rose (P.read_faults port.old) (P.read_faults port.new) }
    ensures counts { KeepsCounts P.Port port.old port.new }
{
    let folded = seat.rows.next(bench.alloc, port)?;
    let Ok(folded) = Arc::new(bench.alloc, folded) else {
        return Err(RowError::Memory);
    };
    if !bench.table.arrive_as(bench.rt, &mut seat.readings, folded) {
        unreachable!();
    }
    Ok(())
}

/// How an error stops the reading: want of memory breaks it off.
fn stop_of(error: RowError) -> Stop
    ensures { result ≡ stop_of error }
{
    match error {
        RowError::Memory => Stop::Broken(PutError::Memory),
        error => Stop::Rows(Err(error)),
    }
}
