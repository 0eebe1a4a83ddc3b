//! Workers beside the one who reads.
ghost use Rattle.std.specs.Prelude.{◌≡◌, ◌≤◌, ◌⊎◌, [], Err, IfErr, IfOk, IsErrOf, List, Option, Some, ℕ};
ghost use Rattle.port_io.specs.Port.{Rose};
ghost use Rattle.port_io.specs.Traffic.{KeepsCounts};
ghost use Rattle.port_io.specs.declared.port.TapeByte.{TapeByte};
ghost use Rattle.report_model.specs.Tasks.{HasTask};
ghost use Rattle.slot_decoder.specs.Histories.{AreAllGuessed};
ghost use Rattle.window_setting.specs.Settings.{IsSetting};
ghost use Rattle.core_state.specs.Arrivals.{arrivals_in};
ghost use Rattle.core_state.specs.States.{events_of};
ghost use Rattle.window_core.specs.Guessed.{AreGuessedFrom};
ghost use Rattle.window_model.specs.Speculation.{start};
ghost use Rattle.window_table.specs.Cores.{IsWithin};
ghost use Rattle.window_table.specs.Readings.{AreReleased, no_readings};
ghost use Rattle.decode_rounds.specs.Courses.{HasNotBegun, IsBrokenOff, IsReadThrough};
ghost use Rattle.decode_rounds.specs.Seats.{HasRead, HasStopped};

use crate::bench::{Bench, Seat, work_all};
use crate::reading::{Stop, read_and_close};
use crate::rest::end_by;
use crate::rounds::Rounds;
use decode_workers::{Gate, WorkEnd, Worker};
use port_io::Port;
use predictor::Predictor;
use run_rounds::{PutError, SlotReader};
use slot_decoder::SlotDecoder;
use std::alloc::{AllocError, Global};
use std::marker::Brand;
use std::sync::Wait;
use std::thread::{Threads, join_mut};
use syndrome_source::RowError;
use window_core::Core;
use window_decode::Exact;
use window_setting::Setting;
use window_table::{NamesSetting, Share, Table};

/// Who decodes, and how.
#[derive(Drop)]
pub struct Crew<'a, Q: Predictor, G: Gate> {
    pub alloc: Global,
    /// What is guessed.
    pub predictor: &'a Q,
    /// How often a window may be given up and still be guessed at again: 8 times at most.
    pub retries: u32,
    /// What a worker passes before and after it decodes. One worker passes none.
    pub gate: &'a G,
    /// How many work: 1 to 8.
    pub workers: u32,
}

/// A table, the seat of the one who reads, the workers, and the shares by which it is seen that
/// nothing was lost.
#[derive(Drop)]
struct Office<'a, Q: Predictor + Drop, Z: NamesSetting> {
    table: Table<Q, Z>,
    seat: Seat<'a, Z>,
    workers: Vec<Worker<Exact>>,
    shares: Vec<Share>,
}

/// Reads the rows and decodes them with workers in threads of their own.
pub(crate) fn read_with_workers<
    R: Threads + Wait + Sync,
    P: Port,
    Q: Predictor + Sync,
    G: Gate + Sync,
>(
    rt: &R,
    port: &mut P,
    rows: SlotReader<'_>,
    crew: &Crew<'_, Q, G>,
    setting: Setting,
) -> Result<Rounds, PutError>
    requires begun { HasNotBegun rows setting }
    requires retries { crew.now.retries ≤ 8 }
    requires some { 1 ≤ crew.now.workers }
    requires few { crew.now.workers ≤ 8 }
    ensures read { IfOk result (λ r. (input : List ℕ) → P.left port.old ≡ Some input →
        IsReadThrough rows.entry.schedule setting (P.left port.old) (P.left port.new)
        (P.tape port.old) (P.tape port.new) r.decoder.progress r.end) }
    ensures task { IfOk result (λ r. r.decoder.progress.task ≡ setting) }
    ensures retries { IfOk result (λ r. r.decoder.retries ≡ crew.now.retries) }
    ensures guessed { IfOk result (λ r. AreAllGuessed (Q.may_guess crew.now.predictor.now)
        r.decoder) }
    ensures broken { IfErr result (λ error. (input : List ℕ) → P.left port.old ≡ Some input →
        IsBrokenOff rows.entry.schedule setting error (P.left port.old) (P.left port.new)
        (P.tape port.old) (P.tape port.new)) }
    ensures fault { IfOk result (λ r. r.end ≡ Err RowError.ReadFault →
        Rose (P.read_faults port.old) (P.read_faults port.new)) }
    ensures write_fault { IsErrOf result PutError.WriteFault →
        Rose (P.write_faults port.old) (P.write_faults port.new) }
    ensures counts { KeepsCounts P.Port port.old port.new }
{
    let core = Core::start(crew.alloc, setting, crew.retries)?;
    read_named::<R, P, Q, G, Brand>(rt, port, rows, crew, core)
}

/// The same with a core in which nothing happened, whose setting a type names.
fn read_named<
    R: Threads + Wait + Sync,
    P: Port,
    Q: Predictor + Sync,
    G: Gate + Sync,
    Z: NamesSetting + Send + Sync,
>(
    rt: &R,
    port: &mut P,
    rows: SlotReader<'_>,
    crew: &Crew<'_, Q, G>,
    core: Core,
) -> Result<Rounds, PutError>
    requires empty { core.journal ≡ [] }
    requires named { core.task ≡ Z.setting }
    requires allowed { core.retries ≡ Z.retries }
    requires guesses { IsWithin (Q.may_guess crew.now.predictor.now) Z.may_guess }
    requires within { IsWithin Z.may_guess (Q.may_guess crew.now.predictor.now) }
    requires begun { HasNotBegun rows Z.setting }
    requires some { 1 ≤ crew.now.workers }
    requires few { crew.now.workers ≤ 8 }
    ensures read { IfOk result (λ r. (input : List ℕ) → P.left port.old ≡ Some input →
        IsReadThrough rows.entry.schedule Z.setting (P.left port.old) (P.left port.new)
        (P.tape port.old) (P.tape port.new) r.decoder.progress r.end) }
    ensures task { IfOk result (λ r. r.decoder.progress.task ≡ Z.setting) }
    ensures retries { IfOk result (λ r. r.decoder.retries ≡ Z.retries) }
    ensures guessed { IfOk result (λ r. AreAllGuessed (Q.may_guess crew.now.predictor.now)
        r.decoder) }
    ensures broken { IfErr result (λ error. (input : List ℕ) → P.left port.old ≡ Some input →
        IsBrokenOff rows.entry.schedule Z.setting error (P.left port.old) (P.left port.new)
        (P.tape port.old) (P.tape port.new)) }
    ensures fault { IfOk result (λ r. r.end ≡ Err RowError.ReadFault →
        Rose (P.read_faults port.old) (P.read_faults port.new)) }
    ensures write_fault { IsErrOf result PutError.WriteFault →
        Rose (P.write_faults port.old) (P.write_faults port.new) }
    ensures counts { KeepsCounts P.Port port.old port.new }
{
    core.is_core();
    let mut office = open_office::<Q, G, Z>(crew, rows, core)?;
    let stop = meet(rt, port, crew, &mut office);
    let Office {
        table,
        seat,
        workers,
        mut shares,
    } = office;
    gather(&mut shares, &workers, &seat.helper);
    let core = table.finish_with(rt, &seat.readings, &shares);
    conclude(port, crew, core, &seat, stop)
}

/// A table round the core, with so many workers as the crew has and one who reads.
fn open_office<'a, 'b, Q: Predictor, G: Gate, Z: NamesSetting>(
    crew: &Crew<'b, Q, G>,
    rows: SlotReader<'a>,
    core: Core,
) -> Result<Office<'a, &'b Q, Z>, AllocError>
    requires empty { core.journal ≡ [] }
    requires named { core.task ≡ Z.setting }
    requires allowed { core.retries ≡ Z.retries }
    requires guesses { IsWithin (Q.may_guess crew.now.predictor.now) Z.may_guess }
    requires some { 1 ≤ crew.now.workers }
    requires few { crew.now.workers ≤ 8 }
    ensures rows { IfOk result (λ office. office.seat.rows ≡ rows.entry) }
    ensures readings { IfOk result (λ office. office.seat.readings ≡ no_readings Z.setting) }
{
    let (table, readings, shares) = Table::<&Q, Z>::with_reader(
        crew.alloc,
        core,
        crew.predictor,
        crew.workers,
    )?;
    let mut workers = Vec::with_capacity(crew.alloc, crew.workers as usize)?;
    for _place in 0..crew.workers {
        workers.push(new_worker(crew.alloc))?;
    }
    let seat = Seat {
        rows,
        readings,
        helper: new_worker(crew.alloc),
    };
    Ok(Office {
        table,
        seat,
        workers,
        shares,
    })
}

/// One who has taken no ticket.
fn new_worker(alloc: Global) -> Worker<Exact> {
    Worker {
        solver: Exact,
        alloc,
        share: Share {
            taken: 0,
            reported: 0,
        },
        end: WorkEnd::Finished,
    }
}

/// The workers work beside the one who reads.
fn meet<
    R: Threads + Wait + Sync,
    P: Port,
    Q: Predictor + Sync,
    G: Gate + Sync,
    Z: NamesSetting + Send + Sync,
>(rt: &R, port: &mut P, crew: &Crew<'_, Q, G>, office: &mut Office<'_, &Q, Z>) -> Stop
    requires setting { IsSetting Z.setting }
    requires begun { HasNotBegun office.old.seat.rows Z.setting }
    requires none { office.old.seat.readings ≡ no_readings Z.setting }
    ensures read { HasRead Z.setting office.old.seat.rows.schedule result (P.left port.old)
        (P.left port.new) (P.tape port.old) (P.tape port.new) office.new.seat.readings }
    ensures schedule { office.new.seat.rows.schedule ≡ office.old.seat.rows.schedule }
    ensures fault { result ≡ Stop.Rows (Err RowError.ReadFault) →
        Rose (P.read_faults port.old) (P.read_faults port.new) }
    ensures write_fault { result ≡ Stop.Broken PutError.WriteFault →
        Rose (P.write_faults port.old) (P.write_faults port.new) }
    ensures counts { KeepsCounts P.Port port.old port.new }
{
    let bench = Bench {
        rt,
        alloc: crew.alloc,
        table: &office.table,
        gate: crew.gate,
    };
    side_by_side(&bench, port, &mut office.workers, &mut office.seat)
}

/// The workers are the first of the two that are joined, so that they come last where no thread can
/// be made: then the table is closed, and they end at once.
fn side_by_side<
    R: Threads + Wait + Sync,
    P: Port,
    Q: Predictor + Sync,
    G: Gate + Sync,
    Z: NamesSetting + Send + Sync,
>(
    bench: &Bench<'_, R, Q, Z, G>,
    port: &mut P,
    workers: &mut Vec<Worker<Exact>>,
    seat: &mut Seat<'_, Z>,
) -> Stop
    requires setting { IsSetting Z.setting }
    requires begun { HasNotBegun seat.old.rows Z.setting }
    requires none { seat.old.readings ≡ no_readings Z.setting }
    ensures read { HasRead Z.setting seat.old.rows.schedule result (P.left port.old)
        (P.left port.new) (P.tape port.old) (P.tape port.new) seat.new.readings }
    ensures schedule { seat.new.rows.schedule ≡ seat.old.rows.schedule }
    ensures fault { result ≡ Stop.Rows (Err RowError.ReadFault) →
        Rose (P.read_faults port.old) (P.read_faults port.new) }
    ensures write_fault { result ≡ Stop.Broken PutError.WriteFault →
        Rose (P.write_faults port.old) (P.write_faults port.new) }
    ensures counts { KeepsCounts P.Port port.old port.new }
{
    let mut stop = Stop::Broken(PutError::Memory);
    let workers = workers.as_mut_slice();
    join_mut(
        bench.rt,
        &mut || work_all(bench, workers),
        &mut || stop = read_and_close(bench, port, seat),
    );
    stop
}

/// The shares of all who worked. There is room for them, so it takes no memory.
fn gather(shares: &mut Vec<Share>, workers: &[Worker<Exact>], helper: &Worker<Exact>) {
    shares.clear();
    for worker in workers {
        let _ = shares.push(worker.share);
    }
    let _ = shares.push(helper.share);
}

/// The end of a run, when all threads are joined. What the workers left is decoded here.
fn conclude<P: Port, Q: Predictor, G: Gate, Z: NamesSetting>(
    port: &mut P,
    crew: &Crew<'_, Q, G>,
    core: Core,
    seat: &Seat<'_, Z>,
    stop: Stop,
) -> Result<Rounds, PutError>
    requires named { core.task ≡ Z.setting }
    requires allowed { core.retries ≡ Z.retries }
    requires guesses { AreGuessedFrom Z.may_guess core.task start (events_of core) }
    requires given { arrivals_in (events_of core) ≡ seat.now.readings.given }
    requires released { AreReleased core seat.now.readings }
    requires task { HasTask seat.now.rows.schedule Z.setting }
    requires within { IsWithin Z.may_guess (Q.may_guess crew.now.predictor.now) }
    ensures end { IfOk result (λ r. stop ≡ Stop.Rows r.end) }
    ensures read { IfOk result (λ r. (left : Option (List ℕ)) (tape : Option (List TapeByte)) →
        HasStopped Z.setting seat.now.rows.schedule stop left (P.left port.old) tape
        (P.tape port.old) seat.now.readings → IsReadThrough seat.now.rows.schedule Z.setting left
        (P.left port.new) tape (P.tape port.new) r.decoder.progress r.end) }
    ensures task { IfOk result (λ r. r.decoder.progress.task ≡ Z.setting) }
    ensures retries { IfOk result (λ r. r.decoder.retries ≡ Z.retries) }
    ensures guessed { IfOk result (λ r. AreAllGuessed (Q.may_guess crew.now.predictor.now)
        r.decoder) }
    ensures broken { IfErr result (λ error. (left : Option (List ℕ))
        (tape : Option (List TapeByte)) →
        HasStopped Z.setting seat.now.rows.schedule stop left (P.left port.old) tape
        (P.tape port.old) seat.now.readings → IsBrokenOff seat.now.rows.schedule Z.setting error
        left (P.left port.new) tape (P.tape port.new)) }
    ensures write_fault { IsErrOf result PutError.WriteFault →
        (stop ≡ Stop.Broken PutError.WriteFault)
        ⊎ Rose (P.write_faults port.old) (P.write_faults port.new) }
    ensures counts { KeepsCounts P.Port port.old port.new }
{
    core.is_core();
    match stop {
        Stop::Broken(error) => Err(error),
        Stop::Rows(end) => {
            let decoder = SlotDecoder::settle(crew.alloc, core, crew.predictor, &mut Exact)?;
            decoder.is_progress();
            decoder.is_history();
            end_by(crew.alloc, port, seat, decoder, end)
        }
    }
}
