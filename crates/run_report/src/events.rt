//! The lines of events.
ghost use Rattle.std.specs.Prelude.{◌≡◌, ◌<◌, ◌++◌, ◌∷◌, OnOk, Some, codes, decimal, length, map, slice_get, string_bytes};
ghost use Rattle.core_journal.specs.Entries.{links_of};
ghost use Rattle.core_journal.specs.declared.event.Event.TheVariants as entry;
ghost use Rattle.core_state.specs.States.{events_of, machine_of};
ghost use Rattle.report_model.specs.Texts.{event_line, line, link_text};
ghost use Rattle.run_report.specs.Reports.{machine_before};
ghost use Rattle.trace_laws.specs.Told.{StandsYet, entry_line};
ghost use Rattle.window_model.specs.Speculation.{Event as ModelEvent};

use crate::fields::{write_line, write_spaced};
use crate::lines::{write_commit, write_release, write_stale};
use crate::links::write_links;
use core_state::{CoreState, Event};
use schedule_reader::Name;
use std::alloc::AllocError;

/// Appends the line of the event at this place of the journal, as it happened to the decoder that
/// the events before it had led to. There is one label for each operation, in order.
///
/// An error is want of memory. It costs time in proportion to the line.
pub fn write_event(
    text: &mut String,
    core: &CoreState,
    labels: &[Name],
    at: usize,
) -> Result<(), AllocError>
    requires { at < length core.now.journal }
    ensures { OnOk result ((event : ModelEvent) → slice_get (events_of core.now) at ≡ Some event →
        string_bytes text.new ≡ string_bytes text.old
        ++ event_line core.now.task labels.now (machine_before core.now at) event) }
{
    core.is_state();
    write_entry(text, core, labels, entry_at(core, at))
}

fn entry_at(core: &CoreState, at: usize) -> Event
    requires { at < length core.now.journal }
    ensures { slice_get core.now.journal at ≡ Some result }
{
    core.journal()[at]
}

/// The line of an entry of the journal.
pub(crate) fn write_entry(
    text: &mut String,
    core: &CoreState,
    labels: &[Name],
    entry: Event,
) -> Result<(), AllocError>
    requires { StandsYet core.now.task core.now.kept (machine_of core.now) entry }
    ensures { OnOk result (string_bytes text.new ≡ string_bytes text.old
        ++ entry_line core.now.task labels.now core.now.kept entry) }
{
    match entry {
        Event::Arrived(slot) => write_line(text, "arrive", &[slot]),
        Event::Claimed(ticket, window) => write_claim(text, core, ticket, window),
        Event::Held(ticket) => write_line(text, "hold", &[ticket]),
        Event::Stale(ticket, current) => write_stale(text, ticket, current),
        Event::Verified(source, window) => write_line(text, "verify", &[source, window]),
        Event::Poisoned(source, window) => write_line(text, "poison", &[source, window]),
        Event::Dropped(window) => write_line(text, "drop", &[window]),
        Event::Committed(ticket, window) => {
            write_commit(text, window, core.kept_of(window, ticket))
        }
        Event::Released(operation, bit) => {
            write_release(text, "release", labels, operation, bit)
        }
    }
}

/// A claim of a window: its ticket, the window, and a link for each dependency.
#[tactic(auto, using(crate::proofs::Spelled::claim_whole))]
fn write_claim(
    text: &mut String,
    core: &CoreState,
    ticket: u32,
    window: u32,
) -> Result<(), AllocError>
    requires { StandsYet core.now.task core.now.kept (machine_of core.now)
        (entry.Claimed ticket window) }
    ensures { OnOk result (string_bytes text.new ≡ string_bytes text.old
        ++ line (codes "claim" ∷ decimal ticket ∷ decimal window
        ∷ map link_text (links_of core.now.kept ticket))) }
{
    text.push_str("claim")?;
    write_spaced(text, &[ticket, window])?;
    write_links(text, core, ticket, window)?;
    text.push_str("\n")
}
