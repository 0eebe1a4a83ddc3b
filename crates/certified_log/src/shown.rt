//! What the lines of a log say of each step.
ghost use Rattle.std.specs.Prelude.{◌≡◌, All, length, true};
ghost use Rattle.certified_log.specs.Shown.{AreCertificates, IsReleaseIn, certificate_at, whole_in};
ghost use Rattle.certified_log.specs.Texts.{IsStepShown};
ghost use Rattle.core_state.specs.States.{machine_of};
ghost use Rattle.run_report.specs.Reports.{steps_of};
ghost use Rattle.surface_model.specs.Text.{is_name};
ghost use Rattle.trace_laws.specs.Told.{StandsYet, entry_steps};

use crate::looks::is_set;
use core_state::{CoreState, Event};
use dual_certificate::Cert;
use schedule_reader::Name;

/// Each step's lines are of the grammar, and each committed window's say its set and what shows it
/// least.
pub(crate) fn are_shown(core: &CoreState, labels: &[Name], certs: &[Option<Cert>])
    requires certs { AreCertificates core.now certs.now }
    requires labels { length core.now.task.operations ≡ length labels.now }
    ensures { All (IsStepShown core.now.task labels.now (whole_in core.now)
        (certificate_at certs.now)) (steps_of core.now) }
{
    core.is_state();
    for entry in core.journal() {
        is_entry_shown(core, labels, certs, *entry);
    }
}

/// The same of the steps of one entry.
fn is_entry_shown(core: &CoreState, labels: &[Name], certs: &[Option<Cert>], entry: Event)
    requires certs { AreCertificates core.now certs.now }
    requires stands { StandsYet core.now.task core.now.kept (machine_of core.now) entry }
    requires labels { IsReleaseIn (length labels.now) entry }
    ensures { All (IsStepShown core.now.task labels.now (whole_in core.now)
        (certificate_at certs.now)) (entry_steps core.now.task core.now.kept entry) }
{
    core.is_state();
    match entry {
        Event::Arrived(_) => {}
        Event::Committed(ticket, window) => is_set(core.kept_of(window, ticket)),
        Event::Released(operation, _) => is_spelled(&labels[operation as usize]),
        Event::Claimed(_, _) => {}
        Event::Held(_) => {}
        Event::Stale(_, _) => {}
        Event::Verified(_, _) => {}
        Event::Poisoned(_, _) => {}
        Event::Dropped(_) => {}
    }
}

fn is_spelled(label: &Name)
    ensures { is_name label.now ≡ true }
{
    let _ = label.as_bytes();
}
