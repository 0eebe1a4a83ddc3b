//! A core on which a script is played, with what its lines print.
ghost use Rattle.std.specs.Prelude.{◌≡◌, ◌<◌, IfOk, [], length, string_bytes};
ghost use Rattle.window_model.specs.Decoder.{Syndrome};
ghost use Rattle.script_run.specs.Plays.{AreMeasured, HasRows, IsLinePlayed, IsPrinted, stage_of};

use crate::act::{Act, arrive, finish, turn};
use crate::event::write_last;
use core_state::CoreState;
use detector_graph::{Folded, Solver};
use predictor::Predictor;
use replay_model::ScriptLine;
use schedule_reader::Name;
use std::alloc::{AllocError, Global};
use std::marker::Model;
use window_core::Core;

/// What became of a line of a script.
#[derive(Clone, Copy, Debug, PartialEq, Eq)]
pub enum Played {
    /// It was done, and what it did is printed.
    Done,
    /// It may not be done: the script is at fault there.
    Refused,
}

/// A core with the rows of all slots, the labels of the operations, and the text that the lines so
/// far printed.
pub struct Player<'a> {
    alloc: Global,
    core: Core,
    text: String,
    rows: &'a [Folded],
    labels: &'a [Name],
}

impl<'a> Drop for Player<'a> {
    fn drop(self) {
        let Player {
            alloc: _,
            core: _,
            text: _,
            rows: _,
            labels: _,
        } = self;
    }
}

impl<'a> Model for Player<'a> {
    ghost use Rattle.std.specs.Prelude.{string_bytes};
    ghost use Rattle.script_run.specs.Plays.{HasRows, Playing};

    ghost Value = { Playing };

    ghost view = { λ p. record {
      core = p.core;
      text = string_bytes p.text;
      rows = p.rows.now;
      labels = p.labels.now;
    } };

    ghost invariant = { λ p. HasRows p.core.task p.rows.now };
}

impl<'a> Player<'a> {
    /// Nothing is printed yet. The rows are those of all slots, in order, and there is a label for
    /// each operation.
    pub fn new(alloc: Global, core: Core, rows: &'a [Folded], labels: &'a [Name]) -> Player<'a>
        requires { HasRows core.task rows.now }
        ensures { result ≡ record {
          core = core;
          text = [];
          rows = rows.now;
          labels = labels.now;
        } }
    {
        let text = String::new(alloc);
        Player {
            alloc,
            core,
            text,
            rows,
            labels,
        }
    }

    /// The state of the core.
    pub fn state(&self) -> &CoreState
        ensures { result.now ≡ self.now.core }
    {
        self.core.state()
    }

    /// What the lines so far printed.
    pub fn text(&self) -> &str
        ensures { result.now ≡ self.now.text }
    {
        self.text.as_str()
    }

    /// Does one line of a script and prints what it does, where it may be done. An error is want
    /// of memory.
    pub fn play<Q: Predictor, S: Solver>(
        &mut self,
        predictor: &Q,
        solver: &mut S,
        line: ScriptLine,
    ) -> Result<Played, AllocError>
        ensures { IfOk result (λ played. (s : Syndrome) →
            AreMeasured self.old.core.task s self.old.rows →
            IsLinePlayed (stage_of (Q.may_guess predictor.now) s self.old.labels self.old.core)
            line self.old self.new played) }
    {
        match line {
            ScriptLine::Arrive => {
                let act = arrive(&mut self.core, self.rows);
                print(&mut self.text, &self.core, self.labels, act)
            }
            ScriptLine::Turn => {
                let act = turn(&mut self.core, predictor);
                print(&mut self.text, &self.core, self.labels, act)
            }
            ScriptLine::Finish(ticket) => {
                let act = finish(self.alloc, &mut self.core, solver, ticket)?;
                print(&mut self.text, &self.core, self.labels, act)
            }
        }
    }
}

/// Prints what a line did to the core.
fn print(text: &mut String, core: &Core, labels: &[Name], act: Act) -> Result<Played, AllocError>
    requires { act ≡ Act.Moved → 0 < length core.now.journal }
    ensures { IfOk result (λ played. IsPrinted labels.now core.now act played
        (string_bytes text.old) (string_bytes text.new)) }
{
    match act {
        Act::Moved => {
            write_last(text, core.state(), labels)?;
            Ok(Played::Done)
        }
        Act::Idle => {
            text.push_str("idle\n")?;
            Ok(Played::Done)
        }
        Act::Done => {
            text.push_str("done\n")?;
            Ok(Played::Done)
        }
        Act::Refused => Ok(Played::Refused),
    }
}
