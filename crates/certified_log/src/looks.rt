//! The answer of a committed window.
ghost use Rattle.std.specs.Prelude.{◌≡◌, ◌<◌, All, IfSome, option_map};
ghost use Rattle.core_state.specs.States.{machine_of};
ghost use Rattle.log_reader.specs.Steps.{AreEdges};
ghost use Rattle.report_model.specs.Logs.{IsLogNumber};
ghost use Rattle.window_model.specs.Speculation.{done, result_of};
ghost use Rattle.window_model.specs.Parts.{part_of};
ghost use Rattle.window_model.specs.Windows.{window_count};

use core_state::CoreState;
use detector_graph::{Decoded, EdgeSet};

/// The answer that a window has committed, once it has.
pub(crate) fn answer_in(core: &CoreState, window: u32) -> Option<&Decoded>
    requires { window < window_count core.now.task.plan }
    ensures set { option_map (λ d. d.now.set) result
        ≡ option_map (result_of (machine_of core.now)) (done ((machine_of core.now).phase window)) }
    ensures part { IfSome result (λ d. d.now.problem.part
        ≡ part_of core.now.task.graph core.now.task.plan window) }
{
    core.is_state();
    let ticket = ticket_of(core, window)?;
    core.answer_of(ticket)
}

/// The ticket of a committed window.
fn ticket_of(core: &CoreState, window: u32) -> Option<u32>
    requires { window < window_count core.now.task.plan }
    ensures { result ≡ done ((machine_of core.now).phase window) }
{
    if core.is_done(window) {
        core.standing(window)
    } else {
        None
    }
}

/// The members of a set are edges of a line.
pub(crate) fn is_set(set: &EdgeSet)
    ensures { AreEdges set.now }
{
    are_small(set.as_slice());
}

/// Numbers of 32 bits are numbers of a log.
pub(crate) fn are_small(numbers: &[u32])
    ensures { All IsLogNumber numbers.now }
{
    let _ = numbers.len();
}
