//! The replay of an accepted schedule.
ghost use Rattle.std.specs.Prelude.{◌≡◌, ◌≢◌, ◌≤◌, ◌++◌, [], Bool, Err, IfErr, IfOk, IsErrOf, List, string_bytes, ℕ};
ghost use Rattle.port_io.specs.Port.{Rose};
ghost use Rattle.port_io.specs.Traffic.{KeepsCounts, Moves};
ghost use Rattle.report_model.specs.Outcomes.{fault_line};
ghost use Rattle.report_model.specs.Tasks.{HasTask, labels_of};
ghost use Rattle.run_rounds.specs.Slots.{at_first, most_lines};
ghost use Rattle.replay_run.specs.Answers.{IsAnswered, IsNothingTold, IsScriptTold, subject};
ghost use Rattle.replay_run.specs.Playings.{IsUnplayed};
ghost use Rattle.replay_run.specs.Readings.{AreFolded, end_of_rows};
ghost use Rattle.replay_run.specs.Replies.{IsReplied, fault_at};

use crate::End;
use crate::end::write_fault;
use crate::play::play;
use crate::rows::read_rows;
use crate::said::report;
use port_io::{Port, Put};
use predictor::Predictor;
use run_report::named;
use run_rounds::{PutError, SlotReader, labels_of};
use script_run::Player;
use std::alloc::Global;
use syndrome_source::RowError;
use window_core::Core;
use window_model::brought;

/// Takes the rows and the script after the header of an accepted schedule, plays the script on a
/// core at its beginning, and puts what is said of it: one text, after all that is taken.
///
/// The text has a line for each line of the script that was done, then the log, the frames where
/// all is done, the summary, and the line of a fault.
///
/// # Errors
///
/// `WriteFault` after a front of the text was put. `Memory` comes before a byte is put.
pub fn replay<P: Port, Q: Predictor>(
    alloc: Global,
    port: &mut P,
    reader: &mut SlotReader<'_>,
    core: Core,
    predictor: &Q,
) -> Result<End, PutError>
    requires task { HasTask reader.old.schedule core.task }
    requires start { reader.old ≡ at_first reader.old.schedule }
    requires lines { reader.old.schedule.rounds_line ≤ most_lines }
    requires begun { core.journal ≡ [] }
    ensures answered { IsAnswered (λ bytes end text. IsReplied (subject reader.old.schedule core
        (Q.may_guess predictor.now)) bytes (P.left port.new) end text) (P.read_faults port.old)
        (P.read_faults port.new) (P.left port.old) (P.left port.new) (P.tape port.old)
        (P.tape port.new) result }
    ensures read_fault { IfOk result (λ end. end ≡ End.ReadFault →
        Rose (P.read_faults port.old) (P.read_faults port.new)) }
    ensures write_fault { IsErrOf result PutError.WriteFault →
        Rose (P.write_faults port.old) (P.write_faults port.new) }
    ensures counts { KeepsCounts P.Port port.old port.new }
{
    match read_rows(alloc, port, reader) {
        Ok(rows) => {
            let labels = labels_of(alloc, reader.conds())?;
            let mut player = Player::new(alloc, core, &rows, &labels);
            replay_script(alloc, port, reader, &mut player, predictor)
        }
        Err(error) => replay_none(alloc, port, reader, &core, error),
    }
}

/// Puts what is said where the rows couldn't be taken.
fn replay_none<P: Port>(
    alloc: Global,
    port: &mut P,
    reader: &SlotReader<'_>,
    core: &Core,
    error: RowError,
) -> Result<End, PutError>
    requires task { HasTask reader.now.schedule core.now.task }
    requires begun { core.now.journal ≡ [] }
    ensures answered { error ≢ RowError.Memory → (reads : ℕ) →
        (error ≡ RowError.ReadFault → Rose reads (P.read_faults port.new)) →
        IsAnswered (λ bytes end text. (bytes ≡ []) × (end ≡ end_of_rows error)
        × IsNothingTold reader.now.schedule core.now.task end text) reads (P.read_faults port.new)
        (P.left port.old) (P.left port.new) (P.tape port.old) (P.tape port.new) result }
    ensures left { P.left port.new ≡ P.left port.old }
    ensures memory { error ≡ RowError.Memory → (result ≡ Err PutError.Memory)
        × Moves P.Port port.old port.new [] }
    ensures read_fault { IfOk result (λ end. end ≡ End.ReadFault → error ≡ RowError.ReadFault) }
    ensures write_fault { IsErrOf result PutError.WriteFault →
        Rose (P.write_faults port.old) (P.write_faults port.new) }
    ensures counts { KeepsCounts P.Port port.old port.new }
{
    named();
    brought();
    let state = core.state();
    state.is_state();
    let end = end_of(error)?;
    let labels = labels_of(alloc, reader.conds())?;
    let said = report(alloc, "", state, &labels, reader.observables())?;
    say(port, said, end)
}

/// Plays the script after the rows that a player has, and puts what is said of it.
fn replay_script<P: Port, Q: Predictor>(
    alloc: Global,
    port: &mut P,
    reader: &SlotReader<'_>,
    player: &mut Player<'_>,
    predictor: &Q,
) -> Result<End, PutError>
    requires task { HasTask reader.now.schedule player.old.core.task }
    requires lines { reader.now.schedule.rounds_line ≤ most_lines }
    requires rows { (rows : List (List Bool))
        × AreFolded reader.now.schedule rows player.old.rows }
    requires unplayed { IsUnplayed player.old }
    requires labels { player.old.labels ≡ labels_of reader.now.schedule }
    ensures answered { (rows : List (List Bool)) →
        AreFolded reader.now.schedule rows player.old.rows →
        IsAnswered (λ bytes end text. IsScriptTold (subject reader.now.schedule player.old.core
        (Q.may_guess predictor.now)) rows bytes (P.left port.new) end text) (P.read_faults port.old)
        (P.read_faults port.new) (P.left port.old) (P.left port.new) (P.tape port.old)
        (P.tape port.new) result }
    ensures read_fault { IfOk result (λ end. end ≡ End.ReadFault →
        Rose (P.read_faults port.old) (P.read_faults port.new)) }
    ensures write_fault { IsErrOf result PutError.WriteFault →
        Rose (P.write_faults port.old) (P.write_faults port.new) }
    ensures counts { KeepsCounts P.Port port.old port.new }
{
    brought();
    named();
    let end = play(port, reader.line_behind(), player, predictor)?;
    let state = player.state();
    state.is_state();
    let labels = labels_of(alloc, reader.conds())?;
    let printed = player.text();
    let said = report(alloc, printed, state, &labels, reader.observables())?;
    say(port, said, end)
}

/// Puts a text, and after it the line of a fault.
fn say<P: Port>(port: &mut P, text: String, end: End) -> Result<End, PutError>
    ensures said { (reads : ℕ) → (end ≡ End.ReadFault → Rose reads (P.read_faults port.new)) →
        IsAnswered (λ bytes e said. (bytes ≡ []) × (e ≡ end)
        × (said ≡ string_bytes text ++ fault_line (fault_at end))) reads (P.read_faults port.new)
        (P.left port.old) (P.left port.new) (P.tape port.old) (P.tape port.new) result }
    ensures left { P.left port.new ≡ P.left port.old }
    ensures same { IfOk result (λ e. e ≡ end) }
    ensures write_fault { IsErrOf result PutError.WriteFault →
        Rose (P.write_faults port.old) (P.write_faults port.new) }
    ensures counts { KeepsCounts P.Port port.old port.new }
{
    let mut text = text;
    write_fault(&mut text, end)?;
    match port.put(text.as_bytes()) {
        Put::Done => Ok(end),
        Put::Failed => Err(PutError::WriteFault),
    }
}

/// How a replay ends at a row that can't be taken, where memory wasn't wanting.
fn end_of(error: RowError) -> Result<End, PutError>
    ensures end { IfOk result (λ end. end ≡ end_of_rows error) }
    ensures other { IfOk result (λ _. error ≢ RowError.Memory) }
    ensures memory { IfErr result (λ stop. (stop ≡ PutError.Memory) × (error ≡ RowError.Memory)) }
{
    match error {
        RowError::Fault { line, kind } => Ok(End::Row { line, kind }),
        RowError::Ended { line } => Ok(End::Ended { line }),
        RowError::ReadFault => Ok(End::ReadFault),
        RowError::Memory => Err(PutError::Memory),
    }
}
