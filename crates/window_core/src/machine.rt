//! The core of the speculative decoder.
ghost use Rattle.std.specs.Prelude.{◌≡◌, ◌≤◌, IfOk, Some, false, true};
ghost use Rattle.window_model.specs.Speculation.{Committed, Dropped, Poisoned, Released, Verified};
ghost use Rattle.window_model.specs.TurnLaws.{CanCompare};
ghost use Rattle.cascade_laws.specs.Turns.{IsClaimTurn, IsCompareTurn};
ghost use Rattle.core_journal.specs.declared.event.Event.TheVariants as entry;
ghost use Rattle.core_state.specs.States.{IsBegun, IsReleaseFound, MayHappen, machine_of};
ghost use Rattle.window_core.specs.Cores.{HasTurned, IsCore, IsNext};
ghost use Rattle.window_core.specs.Turned.{IsJobOf, IsTurned};

use crate::compared::is_right;
use crate::links::fill;
use crate::{Job, Turn};
use claim_drafts::{Drafts, Sheets};
use core_state::CoreState;
use predictor::Predictor;
use std::alloc::{AllocError, Global};
use std::marker::Model;
use window_setting::Setting;

/// What is decoded, and all that happened. It does one event at a call, and takes no memory after
/// its start, but for a copy of a job.
pub struct Core {
    pub(crate) state: CoreState,
    /// For each window a draft for each claim that may come.
    pub(crate) drafts: Drafts,
    /// For each window room for the defects of its problem.
    pub(crate) sheets: Sheets,
}

impl Drop for Core {
    fn drop(self) {
        let Core {
            state: _,
            drafts: _,
            sheets: _,
        } = self;
    }
}

impl Model for Core {
    ghost use Rattle.core_state.specs.States.{CoreTable};
    ghost use Rattle.window_core.specs.Cores.{IsEquipped};

    ghost Value = { CoreTable };

    ghost view = { λ c. c.state };

    ghost invariant = { λ c. IsEquipped c.state c.drafts c.sheets };
}

impl Core {
    /// Nothing has happened. All room that later calls need is taken: for the events, the tickets
    /// with their links and problems, and the answers.
    ///
    /// It costs time in proportion to the numbers of detectors, observables and slots, to windows
    /// times operations, and to what the windows hold for each claim that may come.
    pub fn start(alloc: Global, setting: Setting, retries: u32) -> Result<Core, AllocError>
        requires { retries ≤ 8 }
        ensures { IfOk result (IsBegun setting retries) }
    {
        let drafts = Drafts::new(alloc, &setting, retries + 1)?;
        let sheets = Sheets::new(alloc, &setting)?;
        let state = CoreState::start(alloc, setting, retries)?;
        Ok(Core {
            state,
            drafts,
            sheets,
        })
    }

    /// What holds of each core.
    pub fn is_core(&self)
        ensures { IsCore self.now }
    {
        self.state.is_state();
    }

    /// Makes the first turn that can be made: a window is dropped, a guess is compared, a window is
    /// committed, an operation is released, or a window is claimed, each kind before the next, and
    /// of each the least.
    ///
    /// It costs a look at the windows and their links; a claim also what its window holds.
    pub fn turn<Q: Predictor>(&mut self, predictor: &Q) -> Turn
        ensures { IsTurned (Q.may_guess predictor.now) self.old self.new result }
    {
        if let Some(window) = self.state.next_drop() {
            self.give_up(window);
            return Turn::Dropped(window);
        }
        if let Some((window, source)) = self.state.next_comparison() {
            return if self.compare(window, source) {
                Turn::Verified(source, window)
            } else {
                Turn::Poisoned(source, window)
            };
        }
        if let Some((ticket, window)) = self.state.next_commit() {
            self.commit(ticket, window);
            return Turn::Committed(window);
        }
        if let Some(op) = self.state.next_release() {
            return Turn::Released(op, self.release(op));
        }
        if let Some(window) = self.state.next_claim() {
            return Turn::Claimed(self.claim(predictor, window));
        }
        if self.all_done() {
            Turn::Done
        } else {
            Turn::Idle
        }
    }

    /// A window that rests on a ticket which no longer stands waits again.
    fn give_up(&mut self, window: u32)
        requires { IsNext self.old (Dropped window) }
        ensures { HasTurned self.old (entry.Dropped window) (Dropped window) self.new }
    {
        self.state.give_up(window);
    }

    /// A guess about a source is compared with its result. Whether it was right: then the window
    /// rests on the source's ticket, and else it waits again.
    fn compare(&mut self, window: u32, source: u32) -> bool
        requires { IsCompareTurn self.old.task self.old.retries (machine_of self.old)
            (Some (window, source)) }
        ensures right { result ≡ true → HasTurned self.old (entry.Verified source window)
            (Verified source window) self.new }
        ensures wrong { result ≡ false → HasTurned self.old (entry.Poisoned source window)
            (Poisoned source window) self.new }
    {
        if self.is_right(window, source) {
            self.verify(source, window);
            true
        } else {
            self.poison(source, window);
            false
        }
    }

    fn is_right(&self, window: u32, source: u32) -> bool
        requires { CanCompare self.now.task (machine_of self.now) source window }
        ensures right { result ≡ true → MayHappen self.now (Verified source window) }
        ensures wrong { result ≡ false → MayHappen self.now (Poisoned source window) }
    {
        is_right(&self.state, window, source)
    }

    /// A window rests on the ticket about which it guessed right.
    fn verify(&mut self, source: u32, window: u32)
        requires { IsNext self.old (Verified source window) }
        ensures { HasTurned self.old (entry.Verified source window) (Verified source window)
            self.new }
    {
        self.state.verify(source, window);
    }

    /// A window that guessed wrong waits again.
    fn poison(&mut self, source: u32, window: u32)
        requires { IsNext self.old (Poisoned source window) }
        ensures { HasTurned self.old (entry.Poisoned source window) (Poisoned source window)
            self.new }
    {
        self.state.poison(source, window);
    }

    /// A window's held result is committed.
    fn commit(&mut self, ticket: u32, window: u32)
        requires { IsNext self.old (Committed ticket window) }
        ensures { HasTurned self.old (entry.Committed ticket window) (Committed ticket window)
            self.new }
    {
        self.state.commit(ticket, window);
    }

    /// An operation is released.
    fn release(&mut self, op: u32) -> bool
        requires { IsReleaseFound self.old.task self.old.retries (machine_of self.old) (Some op) }
        ensures { HasTurned self.old (entry.Released op result) (Released op result) self.new }
    {
        self.state.release(op)
    }

    /// A window is claimed.
    fn claim<Q: Predictor>(&mut self, predictor: &Q, window: u32) -> Job
        requires { IsClaimTurn self.old.task self.old.retries (machine_of self.old) (Some window) }
        ensures { IsJobOf (Q.may_guess predictor.now) self.old self.new result }
    {
        self.state.is_state();
        let mut draft = self.drafts.take(window);
        fill(&self.state, predictor, &mut draft.claim);
        let (claim, problem) = draft.finish(self.state.setting(), self.state.values());
        let ticket = self.state.claim(claim);
        Job { ticket, problem }
    }
}
