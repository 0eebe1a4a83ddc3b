//! A core of a table's setting, each of whose guesses may be made.
ghost use Rattle.std.specs.Prelude.{◌≡◌, []};
ghost use Rattle.core_journal.specs.declared.event.Event.TheVariants as entry;
ghost use Rattle.core_state.specs.States.{HasHappened, MayHappen, events_of};
ghost use Rattle.window_core.specs.Guessed.{AreGuessedFrom};
ghost use Rattle.window_core.specs.Turned.{IsReported, IsTurned};
ghost use Rattle.window_model.specs.Speculation.{Arrived, start};

use crate::guesser::Guesser;
use crate::names::NamesSetting;
use detector_graph::Folded;
use predictor::Predictor;
use std::marker::{Model, PhantomData};
use window_core::{Core, Finished, Reported, Turn};

/// A core of the setting and the retries that the type names, in whose history each guess may be
/// made.
#[derive(Drop)]
pub(crate) struct GuessedCore<Z: NamesSetting> {
    core: Core,
    names: PhantomData<Z>,
}

impl<Z: NamesSetting> Model for GuessedCore<Z> {
    ghost use Rattle.core_state.specs.States.{CoreTable};
    ghost use Rattle.window_table.specs.Cores.{IsCoreOf};

    ghost Value = { CoreTable };

    ghost view = { λ g. g.core };

    ghost invariant = { λ g. IsCoreOf Z.setting Z.retries Z.may_guess g.core };
}

impl<Z: NamesSetting> GuessedCore<Z> {
    /// Nothing has happened in it.
    pub(crate) fn new(core: Core) -> GuessedCore<Z>
        requires empty { core.journal ≡ [] }
        requires named { core.task ≡ Z.setting }
        requires allowed { core.retries ≡ Z.retries }
        ensures { result ≡ core }
    {
        GuessedCore {
            core,
            names: PhantomData,
        }
    }

    pub(crate) fn core(&self) -> &Core
        ensures seen { result.now ≡ self.now }
        ensures named { result.now.task ≡ Z.setting }
    {
        &self.core
    }

    pub(crate) fn into_core(self) -> Core
        ensures seen { result ≡ self }
        ensures named { result.task ≡ Z.setting }
        ensures allowed { result.retries ≡ Z.retries }
        ensures guessed { AreGuessedFrom Z.may_guess result.task start (events_of result) }
    {
        let GuessedCore { core, names: _ } = self;
        core
    }

    /// Makes the first turn that can be made.
    pub(crate) fn turn<Q: Predictor>(&mut self, guesser: &Guesser<Q, Z>) -> Turn
        ensures { IsTurned Z.may_guess self.old self.new result }
    {
        self.core.turn(guesser)
    }

    /// Takes an answer.
    pub(crate) fn report(&mut self, finished: Finished) -> Reported
        ensures { IsReported self.old self.new finished result }
    {
        self.core.report(finished)
    }

    /// The next slot arrives.
    pub(crate) fn arrive(&mut self, folded: &Folded)
        requires { MayHappen self.old (Arrived folded.now.slot folded.now.defects folded.now.raws) }
        ensures { HasHappened self.old (entry.Arrived folded.now.slot)
            (Arrived folded.now.slot folded.now.defects folded.now.raws) self.new }
    {
        self.core.arrive(folded);
    }
}
