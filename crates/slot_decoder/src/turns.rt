//! What a core does of itself, turn by turn.
ghost use Rattle.std.specs.Prelude.{◌≡◌, IfOk, List, OnOk, ℕ};
ghost use Rattle.graph_model.specs.Problems.{Decoding};
ghost use Rattle.window_model.specs.Speculation.{Returned};
ghost use Rattle.core_journal.specs.declared.event.Event.TheVariants as entry;
ghost use Rattle.core_state.specs.States.{HasHappened};
ghost use Rattle.window_core.specs.Cores.{IsAwaited};
ghost use Rattle.slot_decoder.specs.Slots.{AllQuiet, AllAnswered, AreReleases, HasGoneOn, IsIdle, IsStepped};

use detector_graph::{Decoded, Solver};
use predictor::Predictor;
use std::alloc::{AllocError, Global};
use window_core::{Core, Finished, Job, Turn};

/// Makes turns, and solves the problem of each claim at once, until no turn is left. The operations
/// that are released are added to the list, with their bits.
///
/// An error, which is want of memory, leaves the core amid this.
pub(crate) fn drive<Q: Predictor, S: Solver>(
    alloc: Global,
    core: &mut Core,
    predictor: &Q,
    solver: &mut S,
    releases: &mut Vec<(u32, bool)>,
) -> Result<(), AllocError>
    requires idle { IsIdle core.old }
    requires given { AreReleases core.old releases.old.items }
    ensures gone { OnOk result (HasGoneOn (Q.may_guess predictor.now) core.old core.new) }
    ensures quiet { OnOk result (AllQuiet core.new) }
    ensures answered { OnOk result (AllAnswered core.new) }
    ensures given { OnOk result (AreReleases core.new releases.new.items) }
{
    while step(alloc, core, predictor, solver, releases)? {
        core.is_core();
    }
    Ok(())
}

/// Makes a turn. Where it is a claim, its problem is solved, and the core holds the answer. Whether
/// a turn was left.
fn step<Q: Predictor, S: Solver>(
    alloc: Global,
    core: &mut Core,
    predictor: &Q,
    solver: &mut S,
    releases: &mut Vec<(u32, bool)>,
) -> Result<bool, AllocError>
    requires idle { IsIdle core.old }
    requires given { AreReleases core.old releases.old.items }
    ensures { IfOk result (λ made. IsStepped (Q.may_guess predictor.now) core.old core.new
        releases.old.items releases.new.items made) }
{
    match core.turn(predictor) {
        Turn::Dropped(_) => Ok(true),
        Turn::Verified(_, _) => Ok(true),
        Turn::Poisoned(_, _) => Ok(true),
        Turn::Committed(_) => Ok(true),
        Turn::Released(op, bit) => {
            releases.push((op, bit))?;
            Ok(true)
        }
        Turn::Claimed(job) => {
            answer(alloc, core, solver, job)?;
            Ok(true)
        }
        Turn::Idle => Ok(false),
        Turn::Done => Ok(false),
    }
}

/// Solves the problem of a ticket that its window runs. The core holds the answer.
fn answer<S: Solver>(
    alloc: Global,
    core: &mut Core,
    solver: &mut S,
    job: Job,
) -> Result<(), AllocError>
    requires { (answer : Decoding) → answer.problem ≡ job.problem →
        IsAwaited core.old job.ticket answer }
    ensures { OnOk result ((set : List ℕ) × HasHappened core.old (entry.Held job.ticket)
        (Returned job.ticket set) core.new) }
{
    let Job { ticket, problem } = job;
    match solver.solve(alloc, problem) {
        Ok(decoded) => {
            hold(core, ticket, decoded);
            Ok(())
        }
        Err((_, error)) => Err(error),
    }
}

/// Reports an answer that is awaited, so the core holds it.
fn hold(core: &mut Core, ticket: u32, decoded: Decoded)
    requires { IsAwaited core.old ticket decoded }
    ensures { HasHappened core.old (entry.Held ticket) (Returned ticket decoded.set) core.new }
{
    let _ = core.report(Finished { ticket, decoded });
}
