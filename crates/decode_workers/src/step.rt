//! One step of a worker.
ghost use Rattle.decode_workers.specs.Ends.{HasAnswered, HasStepped};

use crate::gate::Gate;
use crate::worker::Worker;
use detector_graph::Solver;
use predictor::Predictor;
use std::sync::Wait;
use window_core::{Finished, Job, Turn};
use window_table::{NamesSetting, Table};

/// What one step came to.
#[derive(Clone, Copy)]
pub(crate) enum Step {
    /// Something was done.
    Done,
    /// No turn can be made before something happens.
    Idle,
    /// Memory was wanting.
    Memory,
}

/// Makes a turn. Where it is a claim, its job is decoded while the table's lock is free, and the
/// answer is reported.
pub(crate) fn make_turn<R: Wait, Q: Predictor, Z: NamesSetting, G: Gate, S: Solver>(
    rt: &R,
    table: &Table<Q, Z>,
    gate: &G,
    worker: &mut Worker<S>,
) -> Step
    ensures { HasStepped result worker.old.share worker.new.share }
{
    match table.turn_locked(rt, &mut worker.share) {
        Turn::Claimed(job) => {
            if decode(rt, table, gate, worker, job) {
                Step::Done
            } else {
                Step::Memory
            }
        }
        Turn::Idle => Step::Idle,
        Turn::Done => Step::Idle,
        _ => Step::Done,
    }
}

/// Decodes a job and reports the answer; or, where memory is wanting, tells the others. Whether it
/// was reported.
fn decode<R: Wait, Q: Predictor, Z: NamesSetting, G: Gate, S: Solver>(
    rt: &R,
    table: &Table<Q, Z>,
    gate: &G,
    worker: &mut Worker<S>,
    job: Job,
) -> bool
    ensures { HasAnswered result worker.old.share worker.new.share }
{
    let Job { ticket, problem } = job;
    let window = problem.part.window;
    gate.before_decode(rt, window);
    let solved = worker.solver.solve(worker.alloc, problem);
    gate.after_decode(rt, window);
    match solved {
        Ok(decoded) => {
            table.report_locked(rt, &mut worker.share, Finished { ticket, decoded });
            true
        }
        Err(_) => {
            table.want(rt);
            false
        }
    }
}
