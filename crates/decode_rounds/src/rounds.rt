//! The rows of the slots, read one after another and decoded as they come, and the releases that
//! each brings.
ghost use Rattle.std.specs.Prelude.{◌≡◌, ◌≢◌, ◌≤◌, Err, IfErr, IfOk, IsErrOf, List, Some, drop, length, ℕ};
ghost use Rattle.port_io.specs.Port.{Rose};
ghost use Rattle.port_io.specs.Traffic.{KeepsCounts};
ghost use Rattle.slot_decoder.specs.Histories.{AreAllGuessed};
ghost use Rattle.decode_rounds.specs.Courses.{HasNotBegun, IsAtBeginning, IsBrokenOff, IsReadThrough};

use crate::releases::put_releases;
use crate::working::{Crew, read_with_workers};
use decode_workers::Gate;
use port_io::Port;
use predictor::Predictor;
use run_rounds::{PutError, SlotReader};
use slot_decoder::SlotDecoder;
use std::alloc::Global;
use std::sync::Wait;
use std::thread::Threads;
use syndrome_source::RowError;
use window_decode::Exact;
use window_setting::Setting;

/// The decoder after the rows that were read, and how their reading ended: with the input, or by an
/// error that isn't want of memory.
#[derive(Drop)]
pub struct Rounds {
    pub decoder: SlotDecoder,
    pub end: Result<(), RowError>,
}

/// Reads the rows of a program's slots, each by itself, and decodes them as the crew does. The
/// lines of the operations that are released are put, each before the row of its slot is read.
///
/// One worker is the thread that reads. More of them work in threads of their own beside it, and it
/// decodes too while it waits for a release.
///
/// An error ends the run: no more is put.
pub fn read_rounds<R: Threads + Wait + Sync, P: Port, Q: Predictor + Sync, G: Gate + Sync>(
    rt: &R,
    port: &mut P,
    rows: SlotReader<'_>,
    crew: &Crew<'_, Q, G>,
    setting: Setting,
) -> Result<Rounds, PutError>
    requires begun { HasNotBegun rows setting }
    requires retries { crew.now.retries ≤ 8 }
    requires some { 1 ≤ crew.now.workers }
    requires few { crew.now.workers ≤ 8 }
    ensures read { IfOk result (λ r. (input : List ℕ) → P.left port.old ≡ Some input →
        IsReadThrough rows.entry.schedule setting (P.left port.old) (P.left port.new)
        (P.tape port.old) (P.tape port.new) r.decoder.progress r.end) }
    ensures task { IfOk result (λ r. r.decoder.progress.task ≡ setting) }
    ensures retries { IfOk result (λ r. r.decoder.retries ≡ crew.now.retries) }
    ensures guessed { IfOk result (λ r. AreAllGuessed (Q.may_guess crew.now.predictor.now)
        r.decoder) }
    ensures broken { IfErr result (λ error. (input : List ℕ) → P.left port.old ≡ Some input →
        IsBrokenOff rows.entry.schedule setting error (P.left port.old) (P.left port.new)
        (P.tape port.old) (P.tape port.new)) }
    ensures fault { IfOk result (λ r. r.end ≡ Err RowError.ReadFault →
        Rose (P.read_faults port.old) (P.read_faults port.new)) }
    ensures write_fault { IsErrOf result PutError.WriteFault →
        Rose (P.write_faults port.old) (P.write_faults port.new) }
    ensures counts { KeepsCounts P.Port port.old port.new }
{
    if crew.workers > 1 {
        return read_with_workers(rt, port, rows, crew, setting);
    }
    let decoder = SlotDecoder::start(crew.alloc, setting, crew.retries)?;
    let mut rows = rows;
    read_alone(crew.alloc, port, &mut rows, crew.predictor, decoder)
}

/// The releases after the first so many.
fn later(releases: &[(u32, bool)], count: usize) -> &[(u32, bool)]
    requires { count ≤ length releases.now }
    ensures { result.now ≡ drop count releases.now }
{
    &releases[count..]
}

/// The end of the reading by an error, where that isn't want of memory.
fn stopped(decoder: SlotDecoder, error: RowError) -> Result<Rounds, PutError>
    ensures decoder { IfOk result (λ r. r.decoder ≡ decoder) }
    ensures end { IfOk result (λ r. r.end ≡ Err error) }
    ensures other { IfOk result (λ r. error ≢ RowError.Memory) }
    ensures memory { IfErr result (λ stop. (stop ≡ PutError.Memory) × (error ≡ RowError.Memory)) }
{
    match error {
        RowError::Memory => Err(PutError::Memory),
        error => Ok(Rounds {
            decoder,
            end: Err(error),
        }),
    }
}

/// Reads the rows and decodes them on one thread. The values that a row gives are handed to the
/// decoder, which guesses as the predictor does, and the lines of the operations that are released
/// then are put, before the next row is read.
///
/// The decoder is one at its beginning, and so is the reader.
fn read_alone<P: Port, Q: Predictor>(
    alloc: Global,
    port: &mut P,
    reader: &mut SlotReader<'_>,
    predictor: &Q,
    decoder: SlotDecoder,
) -> Result<Rounds, PutError>
    requires begun { HasNotBegun reader.old decoder.progress.task }
    requires none { IsAtBeginning decoder }
    ensures read { IfOk result (λ r. (input : List ℕ) → P.left port.old ≡ Some input →
        IsReadThrough reader.old.schedule decoder.progress.task (P.left port.old)
        (P.left port.new) (P.tape port.old) (P.tape port.new) r.decoder.progress r.end) }
    ensures task { IfOk result (λ r. r.decoder.progress.task ≡ decoder.progress.task) }
    ensures retries { IfOk result (λ r. r.decoder.retries ≡ decoder.retries) }
    ensures guessed { IfOk result (λ r. AreAllGuessed (Q.may_guess predictor.now) r.decoder) }
    ensures broken { IfErr result (λ error. IsBrokenOff reader.old.schedule decoder.progress.task
        error (P.left port.old) (P.left port.new) (P.tape port.old) (P.tape port.new)) }
    ensures fault { IfOk result (λ r. r.end ≡ Err RowError.ReadFault →
        Rose (P.read_faults port.old) (P.read_faults port.new)) }
    ensures write_fault { IsErrOf result PutError.WriteFault →
        Rose (P.write_faults port.old) (P.write_faults port.new) }
    ensures counts { KeepsCounts P.Port port.old port.new }
{
    decoder.is_progress();
    let mut decoder = decoder;
    for _slot in 0..reader.slots() {
        let folded = match reader.next(alloc, port) {
            Ok(folded) => folded,
            Err(error) => return stopped(decoder, error),
        };
        let before = decoder.releases().len();
        decoder = decoder.arrive(alloc, predictor, &mut Exact, &folded)?;
        decoder.is_progress();
        let due = later(decoder.releases(), before);
        put_releases(alloc, port, reader.conds(), due)?;
    }
    let end = reader.finish(port);
    Ok(Rounds { decoder, end })
}
