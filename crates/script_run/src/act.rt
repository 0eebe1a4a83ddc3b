//! What one line of a script does to a core.
ghost use Rattle.std.specs.Prelude.{◌≡◌, ◌<◌, IfErr, IfOk, List, Some, length, slice_get, ℕ};
ghost use Rattle.window_model.specs.Decoder.{MayArrive, Syndrome};
ghost use Rattle.window_model.specs.Speculation.{decoder_of};
ghost use Rattle.window_model.specs.TicketLaws.{problem_of};
ghost use Rattle.replay_model.specs.declared.ScriptLine.TheVariants as line;
ghost use Rattle.core_state.specs.States.{machine_of};
ghost use Rattle.window_core.specs.Cores.{IsOpen};
ghost use Rattle.script_run.specs.Plays.{AreMeasured, Brings, HasActed, HasMoved, HasRows, bare, stage_of};

use detector_graph::{Decoded, Folded, Solver};
use predictor::Predictor;
use std::alloc::{AllocError, Global};
use window_core::{Core, Finished, Job, Turn};

/// What became of a line.
#[derive(Clone, Copy, Debug, PartialEq, Eq)]
pub enum Act {
    /// An event happened.
    Moved,
    /// No turn can be made before a slot arrives or a ticket is finished.
    Idle,
    /// No turn is left: every window is committed, and every operation is released.
    Done,
    /// The line may not be done.
    Refused,
}

/// The next slot arrives with its row, where it may: it isn't past the last, and every operation of
/// it or of an earlier slot is released. The rows are those of all slots, in order.
///
/// It costs a look at the operations, and what the slot holds.
pub fn arrive(core: &mut Core, rows: &[Folded]) -> Act
    requires { HasRows core.old.task rows.now }
    ensures acted { (s : Syndrome) → AreMeasured core.old.task s rows.now →
        HasActed (bare s core.old) line.Arrive core.old core.new result }
    ensures task { core.new.task ≡ core.old.task }
{
    let slot = core.arrived();
    if !core.may_arrive(slot) {
        return Act::Refused;
    }
    bring(core, row_of(rows, slot));
    Act::Moved
}

/// The row of a slot.
fn row_of(rows: &[Folded], slot: u32) -> &Folded
    requires { slot < length rows.now }
    ensures { slice_get rows.now slot ≡ Some result.now }
{
    &rows[slot as usize]
}

/// The next slot arrives with this row.
fn bring(core: &mut Core, row: &Folded)
    requires may { MayArrive core.old.task (decoder_of core.old.task (machine_of core.old))
        (machine_of core.old).arrived }
    requires row { (s : Syndrome) × Brings core.old.task s (machine_of core.old).arrived row.now }
    ensures { (s : Syndrome) →
        Brings core.old.task s (machine_of core.old).arrived row.now →
        HasMoved (bare s core.old) line.Arrive core.old core.new }
{
    core.arrive(row);
}

/// One turn is made, the first that can be; where none can be, it says whether all is done.
///
/// It costs what a turn of the core costs.
pub fn turn<Q: Predictor>(core: &mut Core, predictor: &Q) -> Act
    ensures { (s : Syndrome) (labels : List (List ℕ)) →
        HasActed (stage_of (Q.may_guess predictor.now) s labels core.old) line.Turn core.old
        core.new result }
{
    match core.turn(predictor) {
        Turn::Idle => Act::Idle,
        Turn::Done => Act::Done,
        Turn::Dropped(_) => Act::Moved,
        Turn::Verified(_, _) => Act::Moved,
        Turn::Poisoned(_, _) => Act::Moved,
        Turn::Committed(_) => Act::Moved,
        Turn::Released(_, _) => Act::Moved,
        Turn::Claimed(_) => Act::Moved,
    }
}

/// The problem of a ticket is decoded and its answer reported, where the ticket is open: it was
/// claimed, has no answer, and wasn't found stale. An error is want of memory, and then the core is
/// as before.
///
/// It costs what the window holds, and what the solver takes for its problem.
pub fn finish<S: Solver>(
    alloc: Global,
    core: &mut Core,
    solver: &mut S,
    ticket: u32,
) -> Result<Act, AllocError>
    ensures acted { IfOk result (λ act. (s : Syndrome) →
        HasActed (bare s core.old) (line.Finish ticket) core.old core.new act) }
    ensures failed { IfErr result (λ _. core.new ≡ core.old) }
{
    if !core.is_open(ticket) {
        return Ok(Act::Refused);
    }
    let decoded = decode(alloc, core, solver, ticket)?;
    close(core, Finished { ticket, decoded });
    Ok(Act::Moved)
}

/// The answer to the problem of a ticket.
fn decode<S: Solver>(
    alloc: Global,
    core: &Core,
    solver: &mut S,
    ticket: u32,
) -> Result<Decoded, AllocError>
    requires { IsOpen core.now ticket }
    ensures { IfOk result (λ d. d.problem ≡ problem_of core.now.task (machine_of core.now) ticket) }
{
    let Job { ticket: _, problem } = core.job(alloc, ticket)?;
    match solver.solve(alloc, problem) {
        Ok(decoded) => Ok(decoded),
        Err((_, error)) => Err(error),
    }
}

/// An answer to the problem of an open ticket is reported.
fn close(core: &mut Core, finished: Finished)
    requires open { IsOpen core.old finished.ticket }
    requires problem { finished.decoded.problem
        ≡ problem_of core.old.task (machine_of core.old) finished.ticket }
    ensures { (s : Syndrome) → HasMoved (bare s core.old) (line.Finish finished.ticket) core.old
        core.new }
{
    core.report(finished);
}
