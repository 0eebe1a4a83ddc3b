//! A script, replayed on an opened schedule.
ghost use Rattle.std.specs.Prelude.{◌≡◌, ◌≤◌, ◌++◌, [], IfOk, IsErrOf, List, Some, true, ℕ};
ghost use Rattle.port_io.specs.Port.{Rose};
ghost use Rattle.port_io.specs.Traffic.{KeepsCounts, Moves, taken};
ghost use Rattle.port_io.specs.declared.port.TapeByte.{TapeByte};
ghost use Rattle.run_header.specs.Openings.{IsHeader, IsOpened};
ghost use Rattle.run_rounds.specs.Slots.{at_first, most_lines};
ghost use Rattle.report_model.specs.Tasks.{HasTask};
ghost use Rattle.replay_run.specs.Answers.{IsAnswered, subject};
ghost use Rattle.replay_run.specs.Replies.{IsReplied};
ghost use Rattle.swiper_run.specs.Answers.{IsAnswerTo, is_of_replay, status_of_reply};
ghost use Rattle.swiper_run.specs.Guessed.{may_guess_of};
ghost use Rattle.swiper_run.specs.Words.{sizes_of};
ghost use Rattle.swiper_run.specs.declared.words.Asked.TheVariants.{Replay};

use crate::Status;
use crate::top::status_of_stop;
use port_io::Port;
use predictor::{Near, Seeded, Zero};
use replay_run::{End, replay};
use run_header::{Opening, headed};
use run_rounds::{PutError, SlotReader};
use run_words::{PredictorKind, ReplayOptions};
use std::alloc::Global;
use window_core::Core;

/// Takes the rows and the script after the header of an opened schedule, and puts what is said of
/// them.
pub(crate) fn put_replay<P: Port>(
    alloc: Global,
    port: &mut P,
    opening: Opening,
    options: ReplayOptions,
) -> Status
    requires retries { options.guessing.retries ≤ 8 }
    requires opened { (header : List ℕ) × IsHeader header
        × IsOpened (sizes_of options.windows) header opening.program opening.map
        opening.setting }
    ensures answer { (header : List ℕ) → IsHeader header →
        IsOpened (sizes_of options.windows) header opening.program opening.map opening.setting →
        (ran : List TapeByte) × Moves P.Port port.old port.new ran
        × IsAnswerTo (Some (Replay options)) (P.left port.new) (P.read_faults port.old)
        (P.read_faults port.new) result (taken header ++ ran) }
    ensures accepted { is_of_replay result ≡ true }
    ensures read_fault { result ≡ Status.ReadFault →
        Rose (P.read_faults port.old) (P.read_faults port.new) }
    ensures write_fault { result ≡ Status.WriteFault →
        Rose (P.write_faults port.old) (P.write_faults port.new) }
    ensures counts { KeepsCounts P.Port port.old port.new }
{
    headed();
    let Opening {
        program,
        map,
        setting,
    } = opening;
    let Ok(mut reader) = SlotReader::new(alloc, &program, &map) else {
        return Status::Memory;
    };
    let Ok(core) = Core::start(alloc, setting, options.guessing.retries) else {
        return Status::Memory;
    };
    let ended = replay_by(alloc, port, &mut reader, core, options.guessing.predictor);
    status_of(ended)
}

/// Replays with the predictor of this kind.
fn replay_by<P: Port>(
    alloc: Global,
    port: &mut P,
    reader: &mut SlotReader<'_>,
    core: Core,
    kind: PredictorKind,
) -> Result<End, PutError>
    requires task { HasTask reader.old.schedule core.task }
    requires start { reader.old ≡ at_first reader.old.schedule }
    requires lines { reader.old.schedule.rounds_line ≤ most_lines }
    requires begun { core.journal ≡ [] }
    ensures answered { IsAnswered (λ bytes end text. IsReplied (subject reader.old.schedule core
        (may_guess_of kind)) bytes (P.left port.new) end text) (P.read_faults port.old)
        (P.read_faults port.new) (P.left port.old) (P.left port.new) (P.tape port.old)
        (P.tape port.new) result }
    ensures read_fault { IfOk result (λ end. end ≡ End.ReadFault →
        Rose (P.read_faults port.old) (P.read_faults port.new)) }
    ensures write_fault { IsErrOf result PutError.WriteFault →
        Rose (P.write_faults port.old) (P.write_faults port.new) }
    ensures counts { KeepsCounts P.Port port.old port.new }
{
    match kind {
        PredictorKind::Zero => replay(alloc, port, reader, core, &Zero),
        PredictorKind::Near => replay(alloc, port, reader, core, &Near),
        PredictorKind::Seeded(seed) => replay(alloc, port, reader, core, &Seeded { seed }),
    }
}

/// The status of a replay that ended so, or broke off.
fn status_of(ended: Result<End, PutError>) -> Status
    ensures { result ≡ status_of_reply ended }
{
    match ended {
        Ok(End::Complete) => Status::Ok,
        Ok(End::Row { line: _, kind: _ }) => Status::Row,
        Ok(End::Ended { line: _ }) => Status::Ended,
        Ok(End::ReadFault) => Status::ReadFault,
        Ok(End::Script { line: _ }) => Status::Script,
        Err(error) => status_of_stop(error),
    }
}
