//! Tickets that nobody has answered.
ghost use Rattle.std.specs.Prelude.{◌≡◌, ◌<◌, IfOk, OnOk, filter_map};
ghost use Rattle.window_model.specs.TicketLaws.{problem_of};
ghost use Rattle.core_state.specs.States.{machine_of};
ghost use Rattle.window_core.specs.Cores.{IsOpen};
ghost use Rattle.slot_decoder.specs.Answers.{HasAnswered, IsClosed, released_in};
ghost use Rattle.slot_decoder.specs.Slots.{IsIdle};

use detector_graph::{Decoded, Solver};
use std::alloc::{AllocError, Global};
use window_core::{Core, Event, Finished, Job};

/// Solves each ticket that was claimed and has no answer, and reports it. Then nothing runs.
///
/// An error, which is want of memory, leaves the core amid this.
pub(crate) fn answer_all<S: Solver>(
    alloc: Global,
    core: &mut Core,
    solver: &mut S,
) -> Result<(), AllocError>
    ensures answered { OnOk result (HasAnswered core.old core.new) }
    ensures idle { OnOk result (IsIdle core.new) }
{
    for ticket in 0..core.state().tickets() {
        answer_where_open(alloc, core, solver, ticket)?;
    }
    core.is_core();
    Ok(())
}

/// Solves a ticket and reports it, where it has no answer.
fn answer_where_open<S: Solver>(
    alloc: Global,
    core: &mut Core,
    solver: &mut S,
    ticket: u32,
) -> Result<(), AllocError>
    requires { ticket < (machine_of core.old).tickets }
    ensures answered { OnOk result (HasAnswered core.old core.new) }
    ensures closed { OnOk result (IsClosed core.new ticket) }
{
    if !core.is_open(ticket) {
        return Ok(());
    }
    let Job { ticket, problem } = core.job(alloc, ticket)?;
    match solver.solve(alloc, problem) {
        Ok(decoded) => {
            hand_in(core, ticket, decoded);
            Ok(())
        }
        Err((_, error)) => Err(error),
    }
}

/// Reports the answer of a ticket that has none.
fn hand_in(core: &mut Core, ticket: u32, decoded: Decoded)
    requires open { IsOpen core.old ticket }
    requires problem { decoded.problem ≡ problem_of core.old.task (machine_of core.old) ticket }
    ensures answered { HasAnswered core.old core.new }
    ensures closed { IsClosed core.new ticket }
{
    let _ = core.report(Finished { ticket, decoded });
}

/// The operations that a journal says were released, with their bits, in its order.
pub(crate) fn releases_of(alloc: Global, journal: &[Event]) -> Result<Vec<(u32, bool)>, AllocError>
    ensures { IfOk result (λ releases. releases.items ≡ filter_map released_in journal.now) }
{
    journal
        .iter()
        .filter_map(|event| released_in(event))
        .collect(alloc)
}

/// The operation that an entry says was released, with its bit.
fn released_in(event: &Event) -> Option<(u32, bool)>
    ensures { result ≡ released_in event.now }
{
    match *event {
        Event::Released(op, bit) => Some((op, bit)),
        _ => None,
    }
}
