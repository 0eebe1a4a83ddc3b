//! The rows of all slots.
ghost use Rattle.std.specs.Prelude.{◌≡◌, ◌≢◌, Bool, IfErr, IfOk, IsErrOf, List, ℕ};
ghost use Rattle.port_io.specs.Port.{Rose};
ghost use Rattle.port_io.specs.Traffic.{KeepsCounts, Moves, taken};
ghost use Rattle.run_rounds.specs.Fed.{AreAllFed, AreUnfed};
ghost use Rattle.run_rounds.specs.Slots.{at_first};
ghost use Rattle.replay_run.specs.Readings.{AreFolded};

use detector_graph::Folded;
use port_io::Port;
use run_rounds::SlotReader;
use std::alloc::Global;
use syndrome_source::RowError;

/// Reads the rows of all slots, each with its line feed, and answers the values that each gives.
///
/// # Errors
///
/// After the first byte that offends, where the input ends before the last line feed, and where a
/// take fails.
pub(crate) fn read_rows<P: Port>(
    alloc: Global,
    port: &mut P,
    reader: &mut SlotReader<'_>,
) -> Result<Vec<Folded>, RowError>
    requires { reader.old ≡ at_first reader.old.schedule }
    ensures read { IfOk result (λ folded. (bytes : List ℕ) × (rows : List (List Bool))
        × Moves P.Port port.old port.new (taken bytes)
        × AreAllFed reader.old.schedule bytes rows
        × AreFolded reader.old.schedule rows folded.items) }
    ensures refused { IfErr result (λ error. (bytes : List ℕ) × (rows : List (List Bool))
        × Moves P.Port port.old port.new (taken bytes)
        × (error ≢ RowError.Memory →
        AreUnfed reader.old.schedule bytes (P.left port.new) rows error)) }
    ensures schedule { reader.new.schedule ≡ reader.old.schedule }
    ensures fault { IsErrOf result RowError.ReadFault →
        Rose (P.read_faults port.old) (P.read_faults port.new) }
    ensures counts { KeepsCounts P.Port port.old port.new }
{
    let mut rows = Vec::new(alloc);
    for _slot in 0..reader.slots() {
        let row = reader.next_before_more(alloc, port)?;
        let Ok(()) = rows.push(row) else {
            return Err(RowError::Memory);
        };
    }
    Ok(rows)
}
