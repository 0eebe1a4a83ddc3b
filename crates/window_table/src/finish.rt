//! What is left when all threads are joined.
ghost use Rattle.std.specs.Prelude.{◌≡◌, true};
ghost use Rattle.core_state.specs.Arrivals.{arrivals_in};
ghost use Rattle.core_state.specs.States.{events_of};
ghost use Rattle.window_core.specs.Guessed.{AreGuessedFrom};
ghost use Rattle.window_model.specs.Speculation.{start};
ghost use Rattle.window_table.specs.Counts.{claims_in, taken_by};
ghost use Rattle.window_table.specs.Readings.{AreReleased};

use crate::locked::Locked;
use crate::names::NamesSetting;
use crate::reader::Reader;
use crate::share::{Share, taken_together};
use crate::table::{Table, wait_for_good};
use predictor::Predictor;
use std::sync::Wait;
use window_core::Core;

impl<Q: Predictor, Z: NamesSetting> Table<Q, Z> {
    /// The core, when all threads are joined. Each guess in it may be made. Just the slots that the
    /// reader brought have arrived in it, each bit that the reader was told is that of a release,
    /// and as many tickets were claimed as the shares count together.
    ///
    /// Where the three say otherwise than the core, it doesn't return. It takes no memory, and
    /// costs time in proportion to the values.
    pub fn finish<R: Wait>(self, rt: &R, reader: Reader<Z>, shares: Vec<Share>) -> Core
    where
        Q: Drop,
        ensures named { result.task ≡ Z.setting }
        ensures allowed { result.retries ≡ Z.retries }
        ensures guessed { AreGuessedFrom Z.may_guess result.task start (events_of result) }
        ensures given { arrivals_in (events_of result) ≡ reader.given }
        ensures told { AreReleased result reader }
        ensures claims { claims_in result.journal ≡ taken_by shares.items }
    {
        self.finish_with(rt, &reader, &shares)
    }

    /// As `finish`, and the reader and the shares stay with the caller.
    pub fn finish_with<R: Wait>(self, rt: &R, reader: &Reader<Z>, shares: &[Share]) -> Core
    where
        Q: Drop,
        ensures named { result.task ≡ Z.setting }
        ensures allowed { result.retries ≡ Z.retries }
        ensures guessed { AreGuessedFrom Z.may_guess result.task start (events_of result) }
        ensures given { arrivals_in (events_of result) ≡ reader.now.given }
        ensures told { AreReleased result reader.now }
        ensures claims { claims_in result.journal ≡ taken_by shares.now }
    {
        let core = self.into_core();
        if !reader.agrees(&core) {
            wait_for_good(rt);
        }
        if !have_taken(shares, &core) {
            wait_for_good(rt);
        }
        core
    }

    fn into_core(self) -> Core
    where
        Q: Drop,
        ensures named { result.task ≡ Z.setting }
        ensures allowed { result.retries ≡ Z.retries }
        ensures guessed { AreGuessedFrom Z.may_guess result.task start (events_of result) }
    {
        let Table {
            locked,
            changed: _,
            guesser: _,
        } = self;
        let Locked {
            core,
            is_closed: _,
            is_wanting: _,
            changes: _,
        } = locked.into_inner();
        core.into_core()
    }
}

/// Whether as many tickets were claimed as the shares count together.
fn have_taken(shares: &[Share], core: &Core) -> bool
    ensures yes { result ≡ true → claims_in core.now.journal ≡ taken_by shares.now }
{
    let Some(taken) = taken_together(shares) else {
        return false;
    };
    taken == u64::from(tickets_of(core))
}

/// How many tickets were claimed.
fn tickets_of(core: &Core) -> u32
    ensures { result ≡ claims_in core.now.journal }
{
    core.state().tickets()
}
