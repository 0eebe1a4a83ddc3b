//! All that a run says at its end, but for the line of a fault.
ghost use Rattle.std.specs.Prelude.{◌≡◌, ◌++◌, List, None, OnOk, length, string_bytes, ℕ};
ghost use Rattle.report_model.specs.Outcomes.{frames_where_done, output_of, output_with, trace_where_asked};
ghost use Rattle.run_report.specs.Names.{printed_names};
ghost use Rattle.run_report.specs.Reports.{FitsCore, steps_of, traced};
ghost use Rattle.window_model.specs.Decoder.{Syndrome};

use crate::done::is_all_done;
use crate::frames::write_frames;
use crate::log::write_log;
use crate::summary::write_summary;
use crate::trace::write_trace;
use core_state::CoreState;
use measure_map::Observable;
use schedule_reader::Name;
use std::alloc::AllocError;

/// Whether the trace of what happened is asked for.
#[derive(Clone, Copy, Debug, PartialEq, Eq)]
pub enum Trace {
    Asked,
    Spared,
}

/// Appends the log, the trace where it is asked for, the frames where all is done, and the summary.
/// There is one label for each operation and one observable for each raw value, in order. The line
/// of a fault comes after it.
///
/// An error is want of memory.
pub fn write_report(
    text: &mut String,
    core: &CoreState,
    labels: &[Name],
    observables: &[Observable],
    trace: Trace,
) -> Result<(), AllocError>
    requires { length observables.now ≡ length core.now.task.raw_slots }
    ensures { OnOk result ((s : Syndrome) → FitsCore core.now s →
        string_bytes text.new ≡ string_bytes text.old
        ++ output_of core.now.task s labels.now (printed_names observables.now)
        (steps_of core.now) (traced trace core.now) None) }
{
    write_log(text, core, labels)?;
    write_after_log(text, core, labels, observables, trace)
}

/// Appends all of it but for the log, which the text ends with: the plain one, or another.
///
/// An error is want of memory.
pub fn write_after_log(
    text: &mut String,
    core: &CoreState,
    labels: &[Name],
    observables: &[Observable],
    trace: Trace,
) -> Result<(), AllocError>
    requires { length observables.now ≡ length core.now.task.raw_slots }
    ensures { OnOk result ((s : Syndrome) → FitsCore core.now s → (before log : List ℕ) →
        string_bytes text.old ≡ before ++ log → string_bytes text.new
        ≡ before ++ output_with log core.now.task s labels.now (printed_names observables.now)
        (steps_of core.now) (traced trace core.now) None) }
{
    write_trace_where_asked(text, core, labels, trace)?;
    write_frames_where_done(text, core, observables)?;
    write_summary(text, core)
}

/// The trace, if it is asked for.
fn write_trace_where_asked(
    text: &mut String,
    core: &CoreState,
    labels: &[Name],
    trace: Trace,
) -> Result<(), AllocError>
    ensures { OnOk result (string_bytes text.new ≡ string_bytes text.old
        ++ trace_where_asked core.now.task labels.now (traced trace core.now)) }
{
    match trace {
        Trace::Asked => write_trace(text, core, labels),
        Trace::Spared => Ok(()),
    }
}

/// The frames, if all is done.
fn write_frames_where_done(
    text: &mut String,
    core: &CoreState,
    observables: &[Observable],
) -> Result<(), AllocError>
    requires { length observables.now ≡ length core.now.task.raw_slots }
    ensures { OnOk result ((s : Syndrome) → FitsCore core.now s →
        string_bytes text.new ≡ string_bytes text.old
        ++ frames_where_done core.now.task s (printed_names observables.now) (steps_of core.now)) }
{
    if is_all_done(core) {
        write_frames(text, core, observables)
    } else {
        Ok(())
    }
}
