//! The trace: all that happened.
ghost use Rattle.std.specs.Prelude.{◌≡◌, ◌++◌, IfOk, OnOk, string_bytes};
ghost use Rattle.core_state.specs.States.{events_of};
ghost use Rattle.report_model.specs.Texts.{event_lines, trace_of};
ghost use Rattle.window_model.specs.Speculation.{start};

use crate::counts::{counts_of, write_counts};
use crate::events::write_entry;
use crate::fields::write_word;
use core_state::CoreState;
use schedule_reader::Name;
use std::alloc::{AllocError, Global};

/// The trace of what happened, as a text of its own.
pub fn trace_text(alloc: Global, core: &CoreState, labels: &[Name]) -> Result<String, AllocError>
    ensures { IfOk result (λ text. string_bytes text
        ≡ trace_of core.now.task labels.now (events_of core.now)) }
{
    let mut text = String::new(alloc);
    write_trace(&mut text, core, labels)?;
    Ok(text)
}

/// Appends the trace: a line for each event, and how often what happened. There is one label for
/// each operation, in order.
///
/// An error is want of memory. It costs time in proportion to the journal and the text, and no
/// memory but the text's own.
pub fn write_trace(text: &mut String, core: &CoreState, labels: &[Name]) -> Result<(), AllocError>
    ensures { OnOk result (string_bytes text.new ≡ string_bytes text.old
        ++ trace_of core.now.task labels.now (events_of core.now)) }
{
    write_word(text, "trace 1\n")?;
    write_entries(text, core, labels)?;
    write_counts(text, &counts_of(core))?;
    write_word(text, "end trace\n")
}

/// The lines of all events.
fn write_entries(text: &mut String, core: &CoreState, labels: &[Name]) -> Result<(), AllocError>
    ensures { OnOk result (string_bytes text.new ≡ string_bytes text.old
        ++ event_lines core.now.task labels.now start (events_of core.now)) }
{
    core.is_state();
    for entry in core.journal() {
        write_entry(text, core, labels, *entry)?;
    }
    Ok(())
}
