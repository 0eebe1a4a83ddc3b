//! What workers do, and the reader while it waits.
ghost use Rattle.std.specs.Prelude.{◌≡◌, ◌<◌, length};
ghost use Rattle.decode_workers.specs.Ends.{HasEnded, IsThere};

use crate::gate::Gate;
use crate::step::{Step, make_turn};
use crate::worker::{WorkEnd, Worker};
use detector_graph::Solver;
use predictor::Predictor;
use std::sync::Wait;
use window_table::{NamesSetting, Table};

/// Works until the table is closed, or memory is wanting.
pub fn work<R: Wait, Q: Predictor, Z: NamesSetting, G: Gate, S: Solver>(
    rt: &R,
    table: &Table<Q, Z>,
    gate: &G,
    worker: &mut Worker<S>,
) -> WorkEnd
    ensures { HasEnded result worker.old.share worker.new.share }
{
    work_until(rt, table, gate, worker, Until::Closed)
}

/// Works until an operation is released, or memory is wanting.
pub fn help_until<R: Wait, Q: Predictor, Z: NamesSetting, G: Gate, S: Solver>(
    rt: &R,
    table: &Table<Q, Z>,
    gate: &G,
    worker: &mut Worker<S>,
    op: u32,
) -> WorkEnd
    requires { op < length Z.setting.operations }
    ensures { HasEnded result worker.old.share worker.new.share }
{
    work_until(rt, table, gate, worker, Until::Released(op))
}

/// Works until nothing runs and no turn can be made before a slot arrives, as where all is done; or
/// memory is wanting.
pub fn drain<R: Wait, Q: Predictor, Z: NamesSetting, G: Gate, S: Solver>(
    rt: &R,
    table: &Table<Q, Z>,
    gate: &G,
    worker: &mut Worker<S>,
) -> WorkEnd
    ensures { HasEnded result worker.old.share worker.new.share }
{
    work_until(rt, table, gate, worker, Until::Quiet)
}

/// Until what a worker works.
#[derive(Clone, Copy)]
pub(crate) enum Until {
    /// The table is closed.
    Closed,
    /// The operation is released.
    Released(u32),
    /// Nothing runs, and no turn can be made.
    Quiet,
}

/// The count of changes is read before all else, so that nothing which happens between a turn and
/// the waiting is missed.
fn work_until<R: Wait, Q: Predictor, Z: NamesSetting, G: Gate, S: Solver>(
    rt: &R,
    table: &Table<Q, Z>,
    gate: &G,
    worker: &mut Worker<S>,
    until: Until,
) -> WorkEnd
    requires { IsThere Z.setting until }
    ensures { HasEnded result worker.old.share worker.new.share }
{
    for _ in rt.forever() {
        let seen = table.changes(rt);
        if table.is_wanting(rt) {
            return WorkEnd::Memory;
        }
        if is_reached(rt, table, until) {
            return WorkEnd::Finished;
        }
        match make_turn(rt, table, gate, worker) {
            Step::Done => {}
            Step::Idle => {
                if is_at_rest(rt, table, until) {
                    return WorkEnd::Finished;
                }
                table.wait_change(rt, seen);
            }
            Step::Memory => return WorkEnd::Memory,
        }
    }
    unreachable!()
}

/// Whether the table is closed, or the operation is released, if it is that for which somebody
/// works.
fn is_reached<R: Wait, Q: Predictor, Z: NamesSetting>(
    rt: &R,
    table: &Table<Q, Z>,
    until: Until,
) -> bool
    requires { IsThere Z.setting until }
{
    match until {
        Until::Closed => table.is_closed(rt),
        Until::Released(op) => table.is_released(rt, op),
        Until::Quiet => false,
    }
}

/// Whether nothing runs, and no turn can be made, if it is that for which somebody works.
fn is_at_rest<R: Wait, Q: Predictor, Z: NamesSetting>(
    rt: &R,
    table: &Table<Q, Z>,
    until: Until,
) -> bool {
    match until {
        Until::Quiet => table.quiet(rt),
        Until::Closed | Until::Released(_) => false,
    }
}
