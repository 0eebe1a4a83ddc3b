//! What is said of a core after the lines of a script.
ghost use Rattle.std.specs.Prelude.{◌≡◌, ◌++◌, IfOk, None, length, string_bytes};
ghost use Rattle.window_model.specs.Decoder.{Syndrome};
ghost use Rattle.report_model.specs.Outcomes.{output_of};
ghost use Rattle.run_report.specs.Names.{printed_names};
ghost use Rattle.run_report.specs.Reports.{FitsCore, steps_of};

use core_state::CoreState;
use measure_map::Observable;
use run_report::{Trace, write_report};
use schedule_reader::Name;
use std::alloc::{AllocError, Global};

/// What was printed, and after it the log, the frames where all is done, and the summary. There is
/// one label for each operation and one observable for each raw value, in order.
pub(crate) fn report(
    alloc: Global,
    printed: &str,
    core: &CoreState,
    labels: &[Name],
    observables: &[Observable],
) -> Result<String, AllocError>
    requires { length observables.now ≡ length core.now.task.raw_slots }
    ensures { IfOk result (λ text. (s : Syndrome) → FitsCore core.now s →
        string_bytes text ≡ printed.now ++ output_of core.now.task s labels.now
        (printed_names observables.now) (steps_of core.now) None None) }
{
    let mut text = String::new(alloc);
    text.push_str(printed)?;
    write_report(&mut text, core, labels, observables, Trace::Spared)?;
    Ok(text)
}
