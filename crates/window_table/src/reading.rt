//! What a reader does at a table.
ghost use Rattle.std.specs.Prelude.{◌≡◌, ◌+◌, ◌<◌, ◌≤◌, IfOk, false, length, replicate, true, []};
ghost use Rattle.std.specs.Arc.{arc_value};
ghost use Rattle.core_state.specs.Arrivals.{FitsSlot};
ghost use Rattle.window_table.specs.Cores.{IsWithin};
ghost use Rattle.window_table.specs.Counts.{no_share};
ghost use Rattle.window_table.specs.Readings.{MayBring, no_readings, with_bit, with_slot};

use crate::names::NamesSetting;
use crate::reader::Reader;
use crate::share::{Share, shares};
use crate::table::{Table, wait_for_good};
use detector_graph::Folded;
use predictor::Predictor;
use std::alloc::{AllocError, Global};
use std::sync::{Arc, Wait};
use window_core::Core;

impl<Q: Predictor, Z: NamesSetting> Table<Q, Z> {
    /// A table round a core in which nothing happened, which has the setting and the retries that
    /// the table's type names; its reader; and a share for each worker and one for the reader. The
    /// predictor makes no guess that the type says may not be made. It takes the room for all that
    /// the reader will bring and be told.
    pub fn with_reader(
        alloc: Global,
        core: Core,
        predictor: Q,
        workers: u32,
    ) -> Result<(Table<Q, Z>, Reader<Z>, Vec<Share>), AllocError>
    where
        Q: Drop,
        requires empty { core.journal ≡ [] }
        requires named { core.task ≡ Z.setting }
        requires allowed { core.retries ≡ Z.retries }
        requires guesses { IsWithin (Q.may_guess predictor) Z.may_guess }
        requires some { 1 ≤ workers }
        requires few { workers ≤ 8 }
        ensures reader { IfOk result (λ made. made.1 ≡ no_readings Z.setting) }
        ensures shares { IfOk result (λ made. made.2.items ≡ replicate (workers + 1) no_share) }
    {
        let counts = shares(alloc, workers + 1)?;
        let reader = Reader::new(alloc, core.setting())?;
        Ok((Table::new(core, predictor), reader, counts))
    }

    /// Whether there is a value for each detector of the slot, and a raw value for each observable,
    /// and it isn't past the last.
    pub fn fits_slot<R: Wait>(&self, rt: &R, folded: &Folded) -> bool
        ensures { result ≡ true → FitsSlot Z.setting folded.now }
    {
        self.locked.lock(rt).fits_slot(folded)
    }

    /// Brings a slot, if it is the reader's next one, isn't past the last, and the reader was told
    /// the bit of each operation of it or of an earlier slot. Whether it was brought.
    ///
    /// Where the core has other arrivals than the reader brought, it doesn't return.
    pub fn arrive_as<R: Wait>(&self, rt: &R, reader: &mut Reader<Z>, folded: Arc<Folded>) -> bool
        requires { FitsSlot Z.setting (arc_value folded) }
        ensures may { result ≡ true → MayBring Z.setting reader.old (arc_value folded).slot }
        ensures brought { result ≡ true → reader.new ≡ with_slot reader.old (arc_value folded) }
        ensures may_not { result ≡ false →
            ¬ MayBring Z.setting reader.old (arc_value folded).slot }
        ensures left { result ≡ false → reader.new ≡ reader.old }
    {
        let mut held = self.locked.lock(rt);
        if !reader.may_bring(held.setting(), folded.slot) {
            return false;
        }
        let arrived = held.arrive(&folded);
        drop(held);
        if !arrived {
            wait_for_good(rt);
        }
        reader.bring(folded);
        self.changed.notify_all();
        true
    }

    /// Waits until an operation is released, and tells the reader its bit.
    pub fn told_as<R: Wait>(&self, rt: &R, reader: &mut Reader<Z>, op: u32) -> bool
        requires { op < length Z.setting.operations }
        ensures { reader.new ≡ with_bit reader.old op result }
    {
        let bit = self.wait_released(rt, op);
        reader.tell(op, bit);
        bit
    }

    /// Waits until an operation is released. Its bit.
    fn wait_released<R: Wait>(&self, rt: &R, op: u32) -> bool
        requires { op < length Z.setting.operations }
    {
        for _ in rt.forever() {
            let seen = self.changes(rt);
            if let Some(bit) = self.locked.lock(rt).released(op) {
                return bit;
            }
            self.wait_change(rt, seen);
        }
        unreachable!()
    }

    /// Whether nothing runs, and no turn can be made.
    pub fn quiet<R: Wait>(&self, rt: &R) -> bool {
        self.locked.lock(rt).is_quiet()
    }
}
