//! The top call: all that the program does, from its words and its input to its status.
ghost use Rattle.std.specs.Prelude.{◌≡◌, ◌≢◌, ◌≤◌, ◌++◌, ◌⊎◌, Bool, Err, List, ℕ, None, Option, Some, map, true};
ghost use Rattle.port_io.specs.Port.{Rose, sent};
ghost use Rattle.port_io.specs.Traffic.{KeepsCounts, Moves, taken};
ghost use Rattle.port_io.specs.declared.port.TapeByte.{TapeByte};
ghost use Rattle.measure_map.specs.Placed.{map_of};
ghost use Rattle.report_model.specs.Faults.{fault_text};
ghost use Rattle.report_model.specs.Tasks.{HasTask, labels_of, names_of};
ghost use Rattle.run_header.specs.Openings.{IsHeader, IsNotOpened, IsOpened};
ghost use Rattle.swiper_run.specs.Answers.{AskForInput, AskForReplay, Concludes, IsAnswer, IsAnswerBy, IsAnswerOf, IsAnswerTo, IsGoodHeader, IsGoodInput, IsGoodRun, IsGoodScript, IsRefusal, IsUnopened, Tells, code_of, is_of_accepted, is_of_asked, is_of_request, status_of_stop};
ghost use Rattle.swiper_run.specs.Faults.{fault_of};
ghost use Rattle.swiper_run.specs.Made.{IsMadeAnswer};
ghost use Rattle.run_header.specs.declared.sizes.PlanSizes.{PlanSizes as Sizes};
ghost use Rattle.run_words.specs.Commands.{IsDecode, is_named};
ghost use Rattle.run_words.specs.declared.command.MakeOptions.{MakeOptions};
ghost use Rattle.swiper_run.specs.Words.{IsAskable, IsInRange, request_of, sizes_asked, sizes_of};
ghost use Rattle.swiper_run.specs.declared.words.Asked.TheVariants.{Decode};
ghost use Rattle.swiper_run.specs.declared.words.Request.{Request as Requested};
ghost use Rattle.swiper_run.specs.declared.words.Request.TheVariants.{Make};

use crate::fault::{Fault, fault_line};
use crate::make::put_made;
use crate::plan::put_plan;
use crate::replay::put_replay;
use crate::report::{report, status_of};
use crate::words::{Asked, Request, request_of, sizes_of};
use decode_rounds::{Crew, Gate, Rounds, read_rounds};
use measure_map::MeasureMap;
use port_io::{Port, Put};
use predictor::{Near, Predictor, Seeded, Zero};
use run_header::{Opening, OpeningError, headed, judged, open_schedule};
use run_report::named;
use run_rounds::{PutError, SlotReader};
use run_words::{DecodeOptions, PredictorKind, WordsError};
use schedule_reader::CondItem;
use schedule_rules::Program;
use std::alloc::Global;
use std::sync::Wait;
use std::thread::Threads;
use syndrome_source::RowError;
use window_model::released;
use window_setting::Setting;

/// How a run ended. The program exits with the status's code.
#[derive(Clone, Copy, Debug, PartialEq, Eq)]
pub enum Status {
    /// The input was decoded to its end.
    Ok,
    /// The words aren't accepted.
    Usage,
    /// The schedule is refused.
    Schedule,
    /// A row has a byte that doesn't fit.
    Row,
    /// The input ended too early.
    Ended,
    /// Reading failed.
    ReadFault,
    /// Writing failed.
    WriteFault,
    /// Memory was wanting.
    Memory,
    /// A line of the script can't be done.
    Script,
    /// The log is not one of a run.
    No,
}

impl Status {
    /// The number of the status, from 0 to 9 in the order above.
    pub fn code(&self) -> u8
        ensures { result ≡ code_of self.now }
    {
        *self as u8
    }
}

/// Does what the words ask for with the input of a port, and puts what it says of it.
///
/// The words are those after the program's name. For `decode` the input is a header, whose schedule
/// is decoded under a plan of the kind and the sizes that the words give, and a row for each slot.
/// Windows are committed once their rows and the windows that they depend on allow it; what the
/// decoder guesses on the way, and how often, the words say too. For `plan` the input begins with a
/// header, and nothing after it is taken; the plan is put as one line of JSON. For `make` nothing is
/// taken, and an input for `decode` is put.
///
/// At every status but those of a failed write and of want of memory the tape that belongs to it
/// stands whole: the line of each release before the slot of its operation, and the output after
/// all. After a failed write a front of it stands, and without memory the releases that were put in
/// time.
///
/// Windows are decoded by as many workers as the words say, each of which passes the gate before
/// and after it decodes. One worker is this thread itself, and passes none; more of them have
/// threads of their own beside it.
pub fn run<R: Threads + Wait + Sync, P: Port, G: Gate + Sync>(
    rt: &R,
    alloc: Global,
    words: &[&str],
    port: &mut P,
    gate: &G,
) -> Status
    ensures answer { (input : List ℕ) → P.left port.old ≡ Some input → (ran : List TapeByte)
        × Moves P.Port port.old port.new ran
        × IsAnswer P.Port port.old port.new (map (λ w. w.now) words.now) result ran }
    ensures usage { result ≡ Status.Usage → request_of (map (λ w. w.now) words.now) ≡ None }
    ensures unaccepted { request_of (map (λ w. w.now) words.now) ≡ None →
        ((result ≡ Status.Usage) ⊎ (result ≡ Status.WriteFault)) ⊎ (result ≡ Status.Memory) }
    ensures memory { result ≡ Status.Memory → is_named (map (λ w. w.now) words.now) ≡ true }
    ensures script { result ≡ Status.Script → AskForReplay (map (λ w. w.now) words.now) }
    ensures no_log { result ≢ Status.No }
    ensures read_fault { result ≡ Status.ReadFault →
        Rose (P.read_faults port.old) (P.read_faults port.new) }
    ensures write_fault { result ≡ Status.WriteFault →
        Rose (P.write_faults port.old) (P.write_faults port.new) }
    ensures complete { (input : List ℕ) → P.left port.old ≡ Some input →
        IsGoodInput (map (λ w. w.now) words.now) input →
        (Rose (P.read_faults port.old) (P.read_faults port.new) → ⊥) →
        (Rose (P.write_faults port.old) (P.write_faults port.new) → ⊥) →
        (result ≡ Status.Ok) ⊎ (result ≡ Status.Memory) }
    ensures plan_complete { (input : List ℕ) → P.left port.old ≡ Some input →
        IsGoodHeader (map (λ w. w.now) words.now) input →
        (Rose (P.read_faults port.old) (P.read_faults port.new) → ⊥) →
        (Rose (P.write_faults port.old) (P.write_faults port.new) → ⊥) →
        (result ≡ Status.Ok) ⊎ (result ≡ Status.Memory) }
    ensures replay_complete { (input : List ℕ) → P.left port.old ≡ Some input →
        IsGoodScript (map (λ w. w.now) words.now) input →
        (Rose (P.read_faults port.old) (P.read_faults port.new) → ⊥) →
        (Rose (P.write_faults port.old) (P.write_faults port.new) → ⊥) →
        (result ≡ Status.Ok) ⊎ (result ≡ Status.Memory) }
    ensures make_complete { AskForInput (map (λ w. w.now) words.now) →
        (Rose (P.write_faults port.old) (P.write_faults port.new) → ⊥) →
        (result ≡ Status.Ok) ⊎ (result ≡ Status.Memory) }
{
    headed();
    judged();
    match request_of(alloc, words) {
        Ok(request) => {
            let means = Means { rt, alloc, gate };
            grant(&means, port, request)
        }
        Err(error) => decline(port, error),
    }
}

/// What a run has besides its port.
#[derive(Drop)]
pub struct Means<'a, R: Wait, G: Gate> {
    /// It makes threads and lets them wait.
    pub rt: &'a R,
    pub alloc: Global,
    /// What each worker passes before and after it decodes.
    pub gate: &'a G,
}

/// Decodes the input of a port with these options, and puts what it says of it, as `run` does for
/// the words that give them; but a guess is whatever the predictor says, and the kind of the
/// predictor in the options is not looked at.
pub fn run_with<R: Threads + Wait + Sync, P: Port, Q: Predictor + Sync, G: Gate + Sync>(
    means: &Means<'_, R, G>,
    port: &mut P,
    options: DecodeOptions,
    predictor: &Q,
) -> Status
    requires { IsDecode options }
    ensures answer { (input : List ℕ) → P.left port.old ≡ Some input → (ran : List TapeByte)
        × Moves P.Port port.old port.new ran
        × IsAnswerBy (Q.may_guess predictor.now) (Some (Decode options)) (P.left port.new)
        (P.read_faults port.old) (P.read_faults port.new) result ran }
    ensures accepted { is_of_accepted result ≡ true }
    ensures read_fault { result ≡ Status.ReadFault →
        Rose (P.read_faults port.old) (P.read_faults port.new) }
    ensures write_fault { result ≡ Status.WriteFault →
        Rose (P.write_faults port.old) (P.write_faults port.new) }
    ensures complete { (input : List ℕ) → P.left port.old ≡ Some input → IsGoodRun options input →
        (Rose (P.read_faults port.old) (P.read_faults port.new) → ⊥) →
        (Rose (P.write_faults port.old) (P.write_faults port.new) → ⊥) →
        (result ≡ Status.Ok) ⊎ (result ≡ Status.Memory) }
{
    headed();
    judged();
    match open_schedule(means.alloc, port, sizes_of(options.windows)) {
        Ok(opening) => decode_opened(means, port, options, predictor, opening),
        Err(error) => refuse(means.alloc, port, error),
    }
}

/// Does what the words ask for.
fn grant<R: Threads + Wait + Sync, P: Port, G: Gate + Sync>(
    means: &Means<'_, R, G>,
    port: &mut P,
    request: Request,
) -> Status
    requires { IsInRange request }
    ensures answer { (input : List ℕ) → P.left port.old ≡ Some input →
        (ran : List TapeByte) × Moves P.Port port.old port.new ran
        × IsAnswerOf (Some request) (P.left port.new) (P.read_faults port.old)
        (P.read_faults port.new) result ran }
    ensures made { (options : MakeOptions) → request ≡ Make options →
        (ran : List TapeByte) × IsMadeAnswer options result ran }
    ensures accepted { is_of_request request result ≡ true }
    ensures read_fault { result ≡ Status.ReadFault →
        Rose (P.read_faults port.old) (P.read_faults port.new) }
    ensures write_fault { result ≡ Status.WriteFault →
        Rose (P.write_faults port.old) (P.write_faults port.new) }
{
    match request {
        Request::OfInput(asked) => serve(means, port, asked),
        Request::Make(options) => put_made(means.alloc, port, options),
    }
}

/// Says that the words aren't accepted, where memory sufficed to see it.
fn decline<P: Port>(port: &mut P, error: WordsError) -> Status
    ensures answer { (given : Option Requested) (reads : ℕ) →
        (error ≡ WordsError.Usage → given ≡ None) →
        (last : List TapeByte) × Moves P.Port port.old port.new last
        × IsAnswerOf given (P.left port.new) reads (P.read_faults port.new) result last }
    ensures usage { result ≡ Status.Usage → error ≡ WordsError.Usage }
    ensures memory { result ≡ Status.Memory → error ≡ WordsError.Memory }
    ensures one { ((result ≡ Status.Usage) ⊎ (result ≡ Status.WriteFault))
        ⊎ (result ≡ Status.Memory) }
    ensures write_fault { result ≡ Status.WriteFault →
        Rose (P.write_faults port.old) (P.write_faults port.new) }
{
    match error {
        WordsError::Usage => conclude(port, b"fault usage\n", Status::Usage),
        WordsError::Memory => Status::Memory,
    }
}

/// Opens the schedule of the input, and does what is asked for.
fn serve<R: Threads + Wait + Sync, P: Port, G: Gate + Sync>(
    means: &Means<'_, R, G>,
    port: &mut P,
    asked: Asked,
) -> Status
    requires { IsAskable asked }
    ensures answer { (input : List ℕ) → P.left port.old ≡ Some input →
        (ran : List TapeByte) × Moves P.Port port.old port.new ran
        × IsAnswerTo (Some asked) (P.left port.new) (P.read_faults port.old)
        (P.read_faults port.new) result ran }
    ensures accepted { is_of_asked asked result ≡ true }
    ensures read_fault { result ≡ Status.ReadFault →
        Rose (P.read_faults port.old) (P.read_faults port.new) }
    ensures write_fault { result ≡ Status.WriteFault →
        Rose (P.write_faults port.old) (P.write_faults port.new) }
{
    match open_schedule(means.alloc, port, asked.sizes()) {
        Ok(opening) => serve_opened(means, port, asked, opening),
        Err(error) => refuse(means.alloc, port, error),
    }
}

/// What is decoded, and how.
#[derive(Drop)]
pub(crate) struct Work {
    options: DecodeOptions,
    program: Program,
    map: MeasureMap,
}

/// Does what is asked for with an opened schedule.
fn serve_opened<R: Threads + Wait + Sync, P: Port, G: Gate + Sync>(
    means: &Means<'_, R, G>,
    port: &mut P,
    asked: Asked,
    opening: Opening,
) -> Status
    requires askable { IsAskable asked }
    requires opened { (header : List ℕ) × IsHeader header
        × IsOpened (sizes_asked asked) header opening.program opening.map opening.setting }
    ensures answer { (header input : List ℕ) → IsHeader header →
        IsOpened (sizes_asked asked) header opening.program opening.map opening.setting →
        P.left port.old ≡ Some input → (ran : List TapeByte) × Moves P.Port port.old port.new ran
        × IsAnswerTo (Some asked) (P.left port.new) (P.read_faults port.old)
        (P.read_faults port.new) result (taken header ++ ran) }
    ensures accepted { is_of_asked asked result ≡ true }
    ensures read_fault { result ≡ Status.ReadFault →
        Rose (P.read_faults port.old) (P.read_faults port.new) }
    ensures write_fault { result ≡ Status.WriteFault →
        Rose (P.write_faults port.old) (P.write_faults port.new) }
    ensures counts { KeepsCounts P.Port port.old port.new }
{
    match asked {
        Asked::Decode(options) => decode(means, port, options, opening),
        Asked::Replay(options) => put_replay(means.alloc, port, opening, options),
        Asked::Plan(_) => put_plan(means.alloc, port, &opening.program, &opening.setting),
    }
}

/// Decodes the rows of an opened schedule, with guesses of the predictor that is asked for, and
/// puts what it says of them.
fn decode<R: Threads + Wait + Sync, P: Port, G: Gate + Sync>(
    means: &Means<'_, R, G>,
    port: &mut P,
    options: DecodeOptions,
    opening: Opening,
) -> Status
    requires range { IsDecode options }
    requires opened { (header : List ℕ) × IsHeader header
        × IsOpened (sizes_of options.windows) header opening.program opening.map
        opening.setting }
    ensures answer { (header input : List ℕ) → IsHeader header →
        IsOpened (sizes_of options.windows) header opening.program opening.map opening.setting →
        P.left port.old ≡ Some input → (ran : List TapeByte) × Moves P.Port port.old port.new ran
        × IsAnswerTo (Some (Decode options)) (P.left port.new) (P.read_faults port.old)
        (P.read_faults port.new) result (taken header ++ ran) }
    ensures accepted { is_of_accepted result ≡ true }
    ensures read_fault { result ≡ Status.ReadFault →
        Rose (P.read_faults port.old) (P.read_faults port.new) }
    ensures write_fault { result ≡ Status.WriteFault →
        Rose (P.write_faults port.old) (P.write_faults port.new) }
    ensures counts { KeepsCounts P.Port port.old port.new }
{
    match options.guessing.predictor {
        PredictorKind::Zero => decode_opened(means, port, options, &Zero, opening),
        PredictorKind::Near => decode_opened(means, port, options, &Near, opening),
        PredictorKind::Seeded(seed) => {
            decode_opened(means, port, options, &Seeded { seed }, opening)
        }
    }
}

/// The same with guesses of any predictor.
fn decode_opened<R: Threads + Wait + Sync, P: Port, Q: Predictor + Sync, G: Gate + Sync>(
    means: &Means<'_, R, G>,
    port: &mut P,
    options: DecodeOptions,
    predictor: &Q,
    opening: Opening,
) -> Status
    requires range { IsDecode options }
    requires opened { (header : List ℕ) × IsHeader header
        × IsOpened (sizes_of options.windows) header opening.program opening.map
        opening.setting }
    ensures answer { (header input : List ℕ) → IsHeader header →
        IsOpened (sizes_of options.windows) header opening.program opening.map opening.setting →
        P.left port.old ≡ Some input → (ran : List TapeByte) × Moves P.Port port.old port.new ran
        × IsAnswerBy (Q.may_guess predictor.now) (Some (Decode options)) (P.left port.new)
        (P.read_faults port.old) (P.read_faults port.new) result (taken header ++ ran) }
    ensures accepted { is_of_accepted result ≡ true }
    ensures read_fault { result ≡ Status.ReadFault →
        Rose (P.read_faults port.old) (P.read_faults port.new) }
    ensures write_fault { result ≡ Status.WriteFault →
        Rose (P.write_faults port.old) (P.write_faults port.new) }
    ensures counts { KeepsCounts P.Port port.old port.new }
{
    let Opening {
        program,
        map,
        setting,
    } = opening;
    let work = Work {
        options,
        program,
        map,
    };
    decode_with(means, port, &work, predictor, setting)
}

/// The same, where what the schedule is known by is lent.
fn decode_with<R: Threads + Wait + Sync, P: Port, Q: Predictor + Sync, G: Gate + Sync>(
    means: &Means<'_, R, G>,
    port: &mut P,
    work: &Work,
    predictor: &Q,
    setting: Setting,
) -> Status
    requires range { IsDecode work.now.options }
    requires opened { (header : List ℕ) × IsHeader header
        × IsOpened (sizes_of work.now.options.windows) header work.now.program work.now.map
        setting }
    ensures answer { (header input : List ℕ) → IsHeader header →
        IsOpened (sizes_of work.now.options.windows) header work.now.program work.now.map setting →
        P.left port.old ≡ Some input → (ran : List TapeByte) × Moves P.Port port.old port.new ran
        × IsAnswerBy (Q.may_guess predictor.now) (Some (Decode work.now.options)) (P.left port.new)
        (P.read_faults port.old) (P.read_faults port.new) result (taken header ++ ran) }
    ensures accepted { is_of_accepted result ≡ true }
    ensures read_fault { result ≡ Status.ReadFault →
        Rose (P.read_faults port.old) (P.read_faults port.new) }
    ensures write_fault { result ≡ Status.WriteFault →
        Rose (P.write_faults port.old) (P.write_faults port.new) }
    ensures counts { KeepsCounts P.Port port.old port.new }
{
    headed();
    released();
    let Ok(rows) = SlotReader::new(means.alloc, &work.program, &work.map) else {
        return Status::Memory;
    };
    let crew = Crew {
        alloc: means.alloc,
        predictor,
        retries: work.options.guessing.retries,
        gate: means.gate,
        workers: work.options.workers,
    };
    match read_rounds(means.rt, port, rows, &crew, setting) {
        Ok(rounds) => {
            rounds.decoder.is_progress();
            rounds.decoder.is_complete();
            rounds.decoder.is_history();
            put_report(means.alloc, port, work, &rounds)
        }
        Err(error) => status_of_stop(error),
    }
}

/// The status of a run that breaks off.
pub(crate) fn status_of_stop(error: PutError) -> Status
    ensures { result ≡ status_of_stop error }
{
    match error {
        PutError::WriteFault => Status::WriteFault,
        PutError::Memory => Status::Memory,
    }
}

/// Puts what is said of the rows that were read.
fn put_report<P: Port>(alloc: Global, port: &mut P, work: &Work, rounds: &Rounds) -> Status
    requires map { work.now.map ≡ map_of work.now.program }
    requires task { HasTask work.now.program rounds.now.decoder.progress.task }
    ensures said { Tells (labels_of work.now.program) (names_of work.now.program)
        rounds.now.decoder work.now.options rounds.now.end result (P.left port.old)
        (P.left port.new) (P.tape port.old) (P.tape port.new) }
    ensures left { P.left port.new ≡ P.left port.old }
    ensures accepted { is_of_accepted result ≡ true }
    ensures read_fault { result ≡ Status.ReadFault → rounds.now.end ≡ Err RowError.ReadFault }
    ensures write_fault { result ≡ Status.WriteFault →
        Rose (P.write_faults port.old) (P.write_faults port.new) }
    ensures counts { KeepsCounts P.Port port.old port.new }
{
    named();
    let conds = conds_of(&work.program);
    match report(alloc, rounds, conds, work.map.observables(), &work.options) {
        Ok(text) => conclude(port, text.as_bytes(), status_of(&rounds.end)),
        Err(_) => Status::Memory,
    }
}

/// The conditions of a program's schedule.
pub(crate) fn conds_of(program: &Program) -> &[CondItem]
    ensures { result.now ≡ program.now.conds }
{
    program.schedule().conds.as_slice()
}

/// Puts why no schedule was opened.
fn refuse<P: Port>(alloc: Global, port: &mut P, error: OpeningError) -> Status
    ensures answer { (sizes : Sizes) (bytes : List ℕ) (reads : ℕ) →
        (error ≡ OpeningError.ReadFault → Rose reads (P.read_faults port.new)) →
        IsNotOpened sizes bytes (P.left port.old) error →
        (last : List TapeByte) × Moves P.Port port.old port.new last
        × IsRefusal sizes (P.left port.new) reads (P.read_faults port.new) result
        (taken bytes ++ last) }
    ensures accepted { is_of_accepted result ≡ true }
    ensures read_fault { result ≡ Status.ReadFault → error ≡ OpeningError.ReadFault }
    ensures write_fault { result ≡ Status.WriteFault →
        Rose (P.write_faults port.old) (P.write_faults port.new) }
    ensures counts { KeepsCounts P.Port port.old port.new }
{
    match error {
        OpeningError::Refused(refusal) => {
            tell(alloc, port, Fault::Refused(refusal), Status::Schedule)
        }
        OpeningError::Ended { line } => tell(alloc, port, Fault::Ended { line }, Status::Ended),
        OpeningError::ReadFault => tell(alloc, port, Fault::Read, Status::ReadFault),
        OpeningError::Memory => Status::Memory,
    }
}

/// Puts a fault's line, and answers the status where it was written.
fn tell<P: Port>(alloc: Global, port: &mut P, fault: Fault, status: Status) -> Status
    ensures answer { (sizes : Sizes) (bytes : List ℕ) (reads : ℕ) →
        (status ≡ Status.ReadFault → Rose reads (P.read_faults port.new)) →
        IsUnopened sizes (P.left port.old) status (taken bytes
        ++ sent (fault_text (fault_of fault))) →
        (last : List TapeByte) × Moves P.Port port.old port.new last
        × IsRefusal sizes (P.left port.new) reads (P.read_faults port.new) result
        (taken bytes ++ last) }
    ensures accepted { is_of_accepted status ≡ true → is_of_accepted result ≡ true }
    ensures cause { result ≡ Status.WriteFault → (status ≡ Status.WriteFault)
        ⊎ Rose (P.write_faults port.old) (P.write_faults port.new) }
    ensures same { ((result ≡ status) ⊎ (result ≡ Status.WriteFault)) ⊎ (result ≡ Status.Memory) }
    ensures counts { KeepsCounts P.Port port.old port.new }
{
    let mut text = String::new(alloc);
    match fault_line(&mut text, &fault) {
        Ok(()) => conclude(port, text.as_bytes(), status),
        Err(_) => Status::Memory,
    }
}

/// Puts the text that belongs to the status, and answers it where the text was written.
pub(crate) fn conclude<P: Port>(port: &mut P, text: &[u8], status: Status) -> Status
    ensures done { Concludes status result text.now (P.left port.old) (P.left port.new)
        (P.tape port.old) (P.tape port.new) }
    ensures left { P.left port.new ≡ P.left port.old }
    ensures cause { result ≡ Status.WriteFault → (status ≡ Status.WriteFault)
        ⊎ Rose (P.write_faults port.old) (P.write_faults port.new) }
    ensures same { (result ≡ status) ⊎ (result ≡ Status.WriteFault) }
    ensures counts { KeepsCounts P.Port port.old port.new }
{
    match port.put(text) {
        Put::Done => status,
        Put::Failed => Status::WriteFault,
    }
}
