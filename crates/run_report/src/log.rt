//! The log: what shows of a history.
ghost use Rattle.std.specs.Prelude.{◌≡◌, ◌++◌, IfOk, OnOk, flat_map, string_bytes};
ghost use Rattle.core_journal.specs.declared.event.Event.{Event as Entry};
ghost use Rattle.core_state.specs.States.{machine_of};
ghost use Rattle.report_model.specs.Texts.{log_of, step_line};
ghost use Rattle.run_report.specs.Reports.{steps_of};
ghost use Rattle.trace_laws.specs.Told.{StandsYet, entry_steps};

use crate::lines::{write_arrival, write_commit, write_release};
use core_state::{CoreState, Event};
use schedule_reader::Name;
use std::alloc::{AllocError, Global};

/// The log of what shows, as a text of its own.
pub fn log_text(alloc: Global, core: &CoreState, labels: &[Name]) -> Result<String, AllocError>
    ensures { IfOk result (λ text. string_bytes text ≡ log_of labels.now (steps_of core.now)) }
{
    let mut text = String::new(alloc);
    write_log(&mut text, core, labels)?;
    Ok(text)
}

/// Appends the log of what shows: a line for each arrival, for each commit with the edges that it
/// keeps, and for each release with the operation's label and its bit. There is one label for each
/// operation, in order.
///
/// An error is want of memory. It costs time in proportion to the journal and the text, and no
/// memory but the text's own.
pub fn write_log(text: &mut String, core: &CoreState, labels: &[Name]) -> Result<(), AllocError>
    ensures { OnOk result (string_bytes text.new ≡ string_bytes text.old
        ++ log_of labels.now (steps_of core.now)) }
{
    text.push_str("log 1\n")?;
    write_steps(text, core, labels)?;
    text.push_str("end log\n")
}

/// The lines of what shows.
fn write_steps(text: &mut String, core: &CoreState, labels: &[Name]) -> Result<(), AllocError>
    ensures { OnOk result (string_bytes text.new ≡ string_bytes text.old
        ++ flat_map (step_line labels.now) (steps_of core.now)) }
{
    core.is_state();
    for entry in core.journal() {
        write_step(text, core, labels, *entry)?;
    }
    Ok(())
}

/// Appends the line of an entry that shows, and nothing of any other. The entry is one of the
/// journal's.
pub fn write_step(
    text: &mut String,
    core: &CoreState,
    labels: &[Name],
    entry: Event,
) -> Result<(), AllocError>
    requires { StandsYet core.now.task core.now.kept (machine_of core.now) entry }
    ensures { OnOk result (string_bytes text.new ≡ string_bytes text.old
        ++ flat_map (step_line labels.now) (entry_steps core.now.task core.now.kept entry)) }
{
    match entry {
        Event::Arrived(slot) => write_arrival(text, slot),
        Event::Committed(ticket, window) => {
            write_commit(text, window, core.kept_of(window, ticket))
        }
        Event::Released(operation, bit) => {
            write_release(text, "released", labels, operation, bit)
        }
        Event::Claimed(_, _) => Ok(()),
        Event::Held(_) => Ok(()),
        Event::Stale(_, _) => Ok(()),
        Event::Verified(_, _) => Ok(()),
        Event::Poisoned(_, _) => Ok(()),
        Event::Dropped(_) => Ok(()),
    }
}
