//! The summary.
ghost use Rattle.std.specs.Prelude.{◌≡◌, ◌<◌, ◌++◌, ◌&&◌, OnOk, nat_lt, string_bytes};
ghost use Rattle.core_state.specs.States.{machine_of};
ghost use Rattle.report_model.specs.Texts.{defects_in, summary_of};
ghost use Rattle.run_report.specs.Reports.{FitsCore, steps_of};
ghost use Rattle.window_model.specs.Decoder.{Syndrome};
ghost use Rattle.window_model.specs.Windows.{slot_of};

use crate::lines::{Summary, write_totals};
use crate::totals::committed;
use core_state::CoreState;
use std::alloc::AllocError;

/// Appends the summary: how many windows there are and are committed, how many detectors of slots
/// that have arrived have the value 1, and how many edges are committed with what weight.
///
/// An error is want of memory. It costs time in proportion to the detectors, the windows and the
/// committed edges.
pub fn write_summary(text: &mut String, core: &CoreState) -> Result<(), AllocError>
    ensures { OnOk result ((s : Syndrome) → FitsCore core.now s →
        string_bytes text.new ≡ string_bytes text.old
        ++ summary_of core.now.task s (steps_of core.now)) }
{
    core.is_state();
    let all = committed(core);
    let summary = Summary {
        windows: core.setting().window_count(),
        done: all.windows,
        defects: defects(core),
        edges: all.edges,
        weight: all.weight,
    };
    write_totals(text, &summary)
}

/// How many detectors of slots that have arrived have the value 1.
fn defects(core: &CoreState) -> u32
    ensures { (s : Syndrome) → FitsCore core.now s →
        result ≡ defects_in core.now.task s (machine_of core.now).arrived }
{
    let mut count = 0;
    for detector in 0..core.setting().graph().vertices() {
        count += u32::from(is_defect(core, detector));
    }
    count
}

/// Whether a detector's slot has arrived with the value 1.
fn is_defect(core: &CoreState, detector: u32) -> bool
    requires { detector < core.now.task.graph.vertices }
    ensures { (s : Syndrome) → FitsCore core.now s → result ≡ s.value detector
        && nat_lt (slot_of core.now.task.tags detector) (machine_of core.now).arrived }
{
    core.is_state();
    core.values().get(detector) && core.setting().slot(detector) < core.arrived()
}
