//! The frames of the observables.
ghost use Rattle.std.specs.Prelude.{◌≡◌, ◌<◌, ◌++◌, IfOk, OnOk, length, string_bytes};
ghost use Rattle.core_state.specs.States.{machine_of};
ghost use Rattle.report_model.specs.Texts.{frames_of};
ghost use Rattle.run_report.specs.Names.{NamesLaw, printed_names};
ghost use Rattle.run_report.specs.Reports.{FitsCore, steps_of};
ghost use Rattle.window_model.specs.Decoder.{Syndrome};

use crate::lines::write_frame;
use core_state::CoreState;
use measure_map::Observable;
use std::alloc::{AllocError, Global};

/// The frames of the observables, as a text of its own.
pub fn frames_text(
    alloc: Global,
    core: &CoreState,
    observables: &[Observable],
) -> Result<String, AllocError>
    requires each { length observables.now ≡ length core.now.task.raw_slots }
    requires arrived { core.now.task.last_slot < (machine_of core.now).arrived }
    ensures { IfOk result (λ text. (s : Syndrome) → FitsCore core.now s → string_bytes text
        ≡ frames_of core.now.task s (printed_names observables.now) (steps_of core.now)) }
{
    let mut text = String::new(alloc);
    write_frames(&mut text, core, observables)?;
    Ok(text)
}

/// Appends the frame of each observable: its name, its raw value, whether the committed edges flip
/// it, and the exclusive or of the two. All slots have arrived, and there is one observable for
/// each label, in order.
///
/// An error is want of memory. It costs time in proportion to the text.
pub fn write_frames(
    text: &mut String,
    core: &CoreState,
    observables: &[Observable],
) -> Result<(), AllocError>
    requires each { length observables.now ≡ length core.now.task.raw_slots }
    requires arrived { core.now.task.last_slot < (machine_of core.now).arrived }
    ensures { OnOk result ((s : Syndrome) → FitsCore core.now s →
        string_bytes text.new ≡ string_bytes text.old
        ++ frames_of core.now.task s (printed_names observables.now) (steps_of core.now)) }
{
    core.is_state();
    for at in 0..observables.len() {
        let label = at as u32;
        let raw = raw_of(core, label);
        write_frame(text, &observables[at], raw, core.flip(label))?;
    }
    Ok(())
}

/// The raw value of an observable, where all slots have arrived.
fn raw_of(core: &CoreState, observable: u32) -> bool
    requires in_range { observable < length core.now.task.raw_slots }
    requires arrived { core.now.task.last_slot < (machine_of core.now).arrived }
    ensures { (s : Syndrome) → FitsCore core.now s → result ≡ s.raw observable }
{
    core.is_state();
    core.raws().get(observable)
}

/// The observables of a schedule's map have the names that its lines give them.
pub fn named()
    ensures { NamesLaw }
{}
