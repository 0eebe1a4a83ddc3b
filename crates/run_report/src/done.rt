//! Whether all is done.
ghost use Rattle.std.specs.Prelude.{◌≡◌, ◌<◌, ◌+◌, ◌==◌, is_some, length, true};
ghost use Rattle.std.specs.List.{list_all, range_with_len};
ghost use Rattle.core_state.specs.States.{machine_of};
ghost use Rattle.report_model.specs.Outcomes.{is_all_done};
ghost use Rattle.run_report.specs.Reports.{decoder_in, steps_of};
ghost use Rattle.window_model.specs.Decoder.{after_all, start};
ghost use Rattle.window_model.specs.Windows.{window_count};

use core_state::CoreState;

/// Whether every slot has arrived, every window is committed and every operation is released.
pub(crate) fn is_all_done(core: &CoreState) -> bool
    ensures value { result ≡ is_all_done core.now.task (after_all start (steps_of core.now)) }
    ensures arrived { result ≡ true → core.now.task.last_slot < (machine_of core.now).arrived }
{
    core.is_state();
    if !have_arrived(core) {
        return false;
    }
    if !are_committed(core) {
        return false;
    }
    are_released(core)
}

fn have_arrived(core: &CoreState) -> bool
    ensures { result ≡ ((machine_of core.now).arrived == core.now.task.last_slot + 1) }
{
    core.is_state();
    let setting = core.setting();
    core.arrived() == setting.last_slot + 1
}

fn are_committed(core: &CoreState) -> bool
    ensures { result ≡ list_all (λ w. is_some ((decoder_in core.now).kept w))
        (range_with_len 0 (window_count core.now.task.plan)) }
{
    for window in 0..core.setting().window_count() {
        if !core.is_done(window) {
            return false;
        }
    }
    true
}

fn are_released(core: &CoreState) -> bool
    ensures { result ≡ list_all (λ op. is_some ((decoder_in core.now).released op))
        (range_with_len 0 (length core.now.task.operations)) }
{
    for op in 0..core.setting().operation_count() {
        if core.released(op).is_none() {
            return false;
        }
    }
    true
}
