//! The line of what happened last.
ghost use Rattle.std.specs.Prelude.{◌≡◌, ◌<◌, ◌+◌, OnOk, length, string_bytes};
ghost use Rattle.script_run.specs.Plays.{IsLastTold};

use core_state::CoreState;
use run_report::write_event;
use schedule_reader::Name;
use std::alloc::AllocError;

/// Appends the line of the core's last event.
pub(crate) fn write_last(
    text: &mut String,
    core: &CoreState,
    labels: &[Name],
) -> Result<(), AllocError>
    requires { 0 < length core.now.journal }
    ensures { OnOk result (IsLastTold labels.now core.now (string_bytes text.old)
        (string_bytes text.new)) }
{
    let last = last_of(core);
    write_event(text, core, labels, last)?;
    Ok(())
}

/// The place of the last entry.
fn last_of(core: &CoreState) -> usize
    requires { 0 < length core.now.journal }
    ensures { result + 1 ≡ length core.now.journal }
{
    core.journal().len() - 1
}
