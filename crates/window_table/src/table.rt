//! The core under a lock. Each call holds the lock once, and does at most one event.
ghost use Rattle.std.specs.Prelude.{◌≡◌, ◌+◌, ◌<◌, [], length};
ghost use Rattle.window_table.specs.Cores.{IsWithin};
ghost use Rattle.window_table.specs.Counts.{claim_in};

use crate::guessed::GuessedCore;
use crate::guesser::Guesser;
use crate::locked::{Locked, is_event};
use crate::names::NamesSetting;
use crate::share::Share;
use predictor::Predictor;
use std::sync::{Condvar, Mutex, Wait};
use window_core::{Core, Finished, Reported, Turn};

/// A core that threads share.
#[derive(Drop)]
pub struct Table<Q: Predictor, Z: NamesSetting> {
    pub(crate) locked: Mutex<Locked<Z>>,
    pub(crate) changed: Condvar,
    pub(crate) guesser: Guesser<Q, Z>,
}

impl<Q: Predictor, Z: NamesSetting> Table<Q, Z> {
    /// A table round a core in which nothing happened, as the table's type names it.
    pub(crate) fn new(core: Core, predictor: Q) -> Table<Q, Z>
        requires empty { core.journal ≡ [] }
        requires named { core.task ≡ Z.setting }
        requires allowed { core.retries ≡ Z.retries }
        requires guesses { IsWithin (Q.may_guess predictor) Z.may_guess }
    {
        let locked = Locked {
            core: GuessedCore::new(core),
            is_closed: false,
            is_wanting: false,
            changes: 0,
        };
        Table {
            locked: Mutex::new(locked),
            changed: Condvar::new(),
            guesser: Guesser::new(predictor),
        }
    }

    /// Makes the first turn that can be made. The share rises where it is a claim.
    pub fn turn_locked<R: Wait>(&self, rt: &R, share: &mut Share) -> Turn
        ensures { share.new ≡ record {
          taken = share.old.taken + claim_in result;
          reported = share.old.reported;
        } }
    {
        if share.taken == u64::MAX {
            wait_for_good(rt);
        }
        let mut held = self.locked.lock(rt);
        let turn = held.turn(&self.guesser);
        drop(held);
        if let Turn::Claimed(_) = &turn {
            share.taken += 1;
        }
        if is_event(&turn) {
            self.changed.notify_all();
        }
        turn
    }

    /// Reports an answer.
    pub fn report_locked<R: Wait>(&self, rt: &R, share: &mut Share, finished: Finished) -> Reported
        ensures { share.new ≡ record {
          taken = share.old.taken;
          reported = share.old.reported + 1;
        } }
    {
        if share.reported == u64::MAX {
            wait_for_good(rt);
        }
        let mut held = self.locked.lock(rt);
        let reported = held.report(finished);
        drop(held);
        share.reported += 1;
        self.changed.notify_all();
        reported
    }

    /// No slot is to come, and nobody need wait for one.
    pub fn close<R: Wait>(&self, rt: &R) {
        let mut held = self.locked.lock(rt);
        held.close();
        drop(held);
        self.changed.notify_all();
    }

    pub fn is_closed<R: Wait>(&self, rt: &R) -> bool {
        self.locked.lock(rt).is_closed
    }

    /// A solver found no memory.
    pub fn want<R: Wait>(&self, rt: &R) {
        let mut held = self.locked.lock(rt);
        held.want();
        drop(held);
        self.changed.notify_all();
    }

    pub fn is_wanting<R: Wait>(&self, rt: &R) -> bool {
        self.locked.lock(rt).is_wanting
    }

    /// How many events, closings and wants there were.
    pub fn changes<R: Wait>(&self, rt: &R) -> u64 {
        self.locked.lock(rt).changes
    }

    /// Waits for a change after that count, or until the table is closed or wanting.
    pub fn wait_change<R: Wait>(&self, rt: &R, seen: u64) {
        let held = self.locked.lock(rt);
        let _held = self.changed.wait_while(rt, held, |now| {
            now.changes == seen && !now.is_closed && !now.is_wanting
        });
    }

    /// Whether an operation is released.
    pub fn is_released<R: Wait>(&self, rt: &R, op: u32) -> bool
        requires { op < length Z.setting.operations }
    {
        self.locked.lock(rt).released(op).is_some()
    }
}

/// It doesn't return.
pub(crate) fn wait_for_good<R: Wait>(rt: &R) -> ! {
    for _ in rt.forever() {}
    unreachable!()
}
