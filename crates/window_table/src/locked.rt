//! What lies under the lock.
ghost use Rattle.std.specs.Prelude.{◌≡◌, ◌<◌, false, if◌then◌else◌, length, true};
ghost use Rattle.core_journal.specs.declared.event.Event.TheVariants as entry;
ghost use Rattle.core_state.specs.Arrivals.{FitsSlot};
ghost use Rattle.core_state.specs.States.{HasHappened, MayHappen, machine_of};
ghost use Rattle.window_core.specs.Turned.{IsReported, IsTurned};
ghost use Rattle.window_model.specs.Decoder.{MayArrive};
ghost use Rattle.window_model.specs.Speculation.{Arrived, decoder_of};
ghost use Rattle.window_table.specs.Counts.{is_change, one_more};

use crate::guessed::GuessedCore;
use crate::guesser::Guesser;
use crate::names::NamesSetting;
use detector_graph::Folded;
use predictor::Predictor;
use window_core::{Finished, Reported, Turn};
use window_setting::Setting;

/// A core, whether no more is to come of it, and whether somebody wanted memory.
#[derive(Drop)]
pub(crate) struct Locked<Z: NamesSetting> {
    pub(crate) core: GuessedCore<Z>,
    pub(crate) is_closed: bool,
    pub(crate) is_wanting: bool,
    /// How many events, closings and wants there were.
    pub(crate) changes: u64,
}

impl<Z: NamesSetting> Locked<Z> {
    /// Makes the first turn that can be made. An idle one is no change.
    pub(crate) fn turn<Q: Predictor>(&mut self, guesser: &Guesser<Q, Z>) -> Turn
        ensures turned { IsTurned Z.may_guess self.old.core self.new.core result }
        ensures changes { self.new.changes
            ≡ (if is_change result then one_more self.old.changes else self.old.changes) }
    {
        let turn = self.core.turn(guesser);
        if is_event(&turn) {
            self.note_change();
        }
        turn
    }

    /// Takes an answer.
    pub(crate) fn report(&mut self, finished: Finished) -> Reported
        ensures reported { IsReported self.old.core self.new.core finished result }
        ensures changes { self.new.changes ≡ one_more self.old.changes }
    {
        let reported = self.core.report(finished);
        self.note_change();
        reported
    }

    /// What is decoded.
    pub(crate) fn setting(&self) -> &Setting
        ensures { result.now ≡ Z.setting }
    {
        self.core.core().setting()
    }

    /// Whether nothing runs, and no turn can be made.
    pub(crate) fn is_quiet(&self) -> bool {
        self.core.core().is_quiet()
    }

    /// Whether there is a value for each detector of the slot, and a raw value for each observable,
    /// and it isn't past the last.
    pub(crate) fn fits_slot(&self, folded: &Folded) -> bool
        ensures { result ≡ true → FitsSlot Z.setting folded.now }
    {
        self.core.core().fits_slot(folded)
    }

    /// The next slot arrives, if it may. Whether it does.
    pub(crate) fn arrive(&mut self, folded: &Folded) -> bool
        requires { FitsSlot Z.setting folded.now }
        ensures arrived { result ≡ true →
            HasHappened self.old.core (entry.Arrived folded.now.slot)
            (Arrived folded.now.slot folded.now.defects folded.now.raws) self.new.core }
        ensures left { result ≡ false → self.new.core ≡ self.old.core }
        ensures may_not { result ≡ false → ¬ MayArrive self.old.core.task
            (decoder_of self.old.core.task (machine_of self.old.core)) folded.now.slot }
    {
        if !self.core.core().may_arrive(folded.slot) {
            return false;
        }
        self.take(folded);
        true
    }

    fn take(&mut self, folded: &Folded)
        requires { MayHappen self.old.core
            (Arrived folded.now.slot folded.now.defects folded.now.raws) }
        ensures arrived { HasHappened self.old.core (entry.Arrived folded.now.slot)
            (Arrived folded.now.slot folded.now.defects folded.now.raws) self.new.core }
        ensures changes { self.new.changes ≡ one_more self.old.changes }
    {
        self.core.arrive(folded);
        self.note_change();
    }

    /// The bit of an operation, once it is released.
    pub(crate) fn released(&self, op: u32) -> Option<bool>
        requires { op < length Z.setting.operations }
        ensures { result ≡ (machine_of self.now.core).released op }
    {
        self.core.core().released(op)
    }

    pub(crate) fn close(&mut self)
        ensures core { self.new.core ≡ self.old.core }
        ensures closed { self.new.is_closed ≡ true }
        ensures wanting { self.new.is_wanting ≡ self.old.is_wanting }
        ensures changes { self.new.changes ≡ one_more self.old.changes }
    {
        self.is_closed = true;
        self.note_change();
    }

    pub(crate) fn want(&mut self)
        ensures core { self.new.core ≡ self.old.core }
        ensures closed { self.new.is_closed ≡ self.old.is_closed }
        ensures wanting { self.new.is_wanting ≡ true }
        ensures changes { self.new.changes ≡ one_more self.old.changes }
    {
        self.is_wanting = true;
        self.note_change();
    }

    fn note_change(&mut self)
        ensures core { self.new.core ≡ self.old.core }
        ensures closed { self.new.is_closed ≡ self.old.is_closed }
        ensures wanting { self.new.is_wanting ≡ self.old.is_wanting }
        ensures changes { self.new.changes ≡ one_more self.old.changes }
    {
        self.changes = self.changes.saturating_add(1);
    }
}

/// Whether a turn did something.
pub(crate) fn is_event(turn: &Turn) -> bool
    ensures { result ≡ is_change turn.now }
{
    !matches!(turn, Turn::Idle | Turn::Done)
}
