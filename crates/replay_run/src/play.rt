//! A script, played line by line.
ghost use Rattle.std.specs.Prelude.{◌≡◌, ◌≤◌, ◌+◌, ◌-◌, ◌^◌, IfOk, IfSome, List, None, Some, ℕ};
ghost use Rattle.port_io.specs.Port.{Rose};
ghost use Rattle.port_io.specs.Traffic.{KeepsCounts, Moves, taken};
ghost use Rattle.replay_model.specs.Scripts.{most_lines};
ghost use Rattle.window_model.specs.Decoder.{Syndrome};
ghost use Rattle.script_run.specs.Plays.{AreMeasured, stage_of};
ghost use Rattle.replay_run.specs.Playings.{IsLineDone, IsPlayedTo, IsStepped, IsTakenTo, IsUnplayed};
ghost use Rattle.replay_run.specs.Readings.{end_of_due};

use crate::End;
use port_io::Port;
use predictor::Predictor;
use replay_model::ScriptLine;
use script_reader::{Found, ScriptError, ScriptReader, ended, last, read_on, stopped};
use script_run::{Played, Player};
use std::alloc::AllocError;
use window_decode::Exact;

/// One line more than a script may have.
const MOST_STEPS: u32 = 1_000_001;

/// Takes the line `script`, which has this number, and plays the script after it to its end, or to
/// the first line that is none or can't be done.
///
/// An error is want of memory.
pub(crate) fn play<P: Port, Q: Predictor>(
    port: &mut P,
    number: u32,
    player: &mut Player<'_>,
    predictor: &Q,
) -> Result<End, AllocError>
    requires few { number + 1 + most_lines ≤ 2 ^ 32 - 1 }
    requires unplayed { IsUnplayed player.old }
    ensures played { IfOk result (λ end. (s : Syndrome) →
        AreMeasured player.old.core.task s player.old.rows → (bytes : List ℕ)
        × Moves P.Port port.old port.new (taken bytes)
        × IsTakenTo (stage_of (Q.may_guess predictor.now) s player.old.labels player.old.core)
        number bytes (P.left port.new) player.old player.new end) }
    ensures took { (bytes : List ℕ) × Moves P.Port port.old port.new (taken bytes) }
    ensures fault { IfOk result (λ end. end ≡ End.ReadFault →
        Rose (P.read_faults port.old) (P.read_faults port.new)) }
    ensures counts { KeepsCounts P.Port port.old port.new }
{
    match ScriptReader::begin(port, number) {
        Ok(script) => play_lines(port, script, player, predictor),
        Err(error) => Ok(end_of(error)),
    }
}

/// How a replay ends at a line that is none.
fn end_of(error: ScriptError) -> End
    ensures { result ≡ end_of_due error }
{
    match error {
        ScriptError::Fault { line } => End::Script { line },
        ScriptError::Ended { line } => End::Ended { line },
        ScriptError::ReadFault => End::ReadFault,
    }
}

/// Plays the lines of a script.
fn play_lines<P: Port, Q: Predictor>(
    port: &mut P,
    script: ScriptReader,
    player: &mut Player<'_>,
    predictor: &Q,
) -> Result<End, AllocError>
    requires room { script.room ≡ most_lines }
    requires unplayed { IsUnplayed player.old }
    ensures played { IfOk result (λ end. (s : Syndrome) →
        AreMeasured player.old.core.task s player.old.rows → (bytes : List ℕ)
        × Moves P.Port port.old port.new (taken bytes)
        × IsPlayedTo (stage_of (Q.may_guess predictor.now) s player.old.labels player.old.core)
        script.line bytes (P.left port.new) player.old player.new end) }
    ensures took { (bytes : List ℕ) × Moves P.Port port.old port.new (taken bytes) }
    ensures fault { IfOk result (λ end. end ≡ End.ReadFault →
        Rose (P.read_faults port.old) (P.read_faults port.new)) }
    ensures counts { KeepsCounts P.Port port.old port.new }
{
    read_on();
    last();
    ended();
    stopped();
    let mut script = script;
    for _ in 0..MOST_STEPS {
        let stopped = step(port, &mut script, player, predictor)?;
        match stopped {
            Some(end) => return Ok(end),
            None => {}
        }
    }
    unreachable!()
}

/// Takes one line of a script and does it, where it may be done. `None` where others may come.
fn step<P: Port, Q: Predictor>(
    port: &mut P,
    script: &mut ScriptReader,
    player: &mut Player<'_>,
    predictor: &Q,
) -> Result<Option<End>, AllocError>
    ensures stepped { IfOk result (λ end. (s : Syndrome) →
        AreMeasured player.old.core.task s player.old.rows → (bytes : List ℕ)
        × Moves P.Port port.old port.new (taken bytes)
        × IsStepped (stage_of (Q.may_guess predictor.now) s player.old.labels player.old.core)
        script.old script.new (P.left port.new) bytes player.old player.new end) }
    ensures room { IfOk result (λ end. end ≡ None → script.new.room + 1 ≡ script.old.room) }
    ensures took { (bytes : List ℕ) × Moves P.Port port.old port.new (taken bytes) }
    ensures fault { IfOk result (λ end. end ≡ Some End.ReadFault →
        Rose (P.read_faults port.old) (P.read_faults port.new)) }
    ensures counts { KeepsCounts P.Port port.old port.new }
{
    let number = script.line();
    let found = match script.next_line(port) {
        Ok(found) => found,
        Err(error) => return Ok(Some(end_of(error))),
    };
    match found {
        Found::Line(line) => {
            let end = do_line(player, predictor, line, number)?;
            Ok(end)
        }
        Found::Last(line) => {
            let end = do_line(player, predictor, line, number)?;
            Ok(Some(end.unwrap_or(End::Complete)))
        }
        Found::End => Ok(Some(End::Complete)),
    }
}

/// Does the line of this number, where it may be done.
fn do_line<Q: Predictor>(
    player: &mut Player<'_>,
    predictor: &Q,
    line: ScriptLine,
    number: u32,
) -> Result<Option<End>, AllocError>
    ensures done { IfOk result (λ end. (s : Syndrome) →
        AreMeasured player.old.core.task s player.old.rows →
        IsLineDone (stage_of (Q.may_guess predictor.now) s player.old.labels player.old.core)
        line number player.old player.new end) }
    ensures script { IfOk result (λ end. IfSome end (λ e. e ≡ End.Script number)) }
{
    let played = player.play(predictor, &mut Exact, line)?;
    match played {
        Played::Done => Ok(None),
        Played::Refused => Ok(Some(End::Script { line: number })),
    }
}
