//! What is reported of a core: its report, and each text by itself.
ghost use Rattle.std.specs.Prelude.{◌≡◌, ◌<◌, length};
ghost use Rattle.core_state.specs.States.{machine_of};

use crate::failure::Failure;
use crate::one_slot::{arrived, observables, started};
use core_state::CoreState;
use measure_map::Observable;
use run_report::{Trace, frames_text, log_text, trace_text, write_event, write_report};
use std::alloc::{AllocError, Global};

/// The report of a core of which nothing has happened.
pub(crate) fn of_nothing(alloc: Global) -> Result<String, Failure> {
    let observables = observables(alloc)?;
    let core = started(alloc)?;
    let mut text = String::new(alloc);
    let reported = write_report(&mut text, &core, &[], &observables, Trace::Spared);
    drop(core);
    reported?;
    Ok(text)
}

/// All texts of a core whose slot has arrived.
pub(crate) fn of_an_arrival(alloc: Global) -> Result<String, Failure> {
    let observables = observables(alloc)?;
    let core = arrived(alloc)?;
    let text = all_texts(alloc, &core, &observables);
    drop(core);
    Ok(text?)
}

/// The report with the trace, then each text by itself, and the line of the event.
fn all_texts(
    alloc: Global,
    core: &CoreState,
    observables: &[Observable],
) -> Result<String, AllocError>
    requires journal { length core.now.journal ≡ 1 }
    requires observables { length observables.now ≡ length core.now.task.raw_slots }
    requires arrived { core.now.task.last_slot < (machine_of core.now).arrived }
{
    let mut text = String::new(alloc);
    write_report(&mut text, core, &[], observables, Trace::Asked)?;
    text.push_str(log_text(alloc, core, &[])?.as_str())?;
    text.push_str(trace_text(alloc, core, &[])?.as_str())?;
    text.push_str(frames_text(alloc, core, observables)?.as_str())?;
    write_event(&mut text, core, &[], 0)?;
    Ok(text)
}
