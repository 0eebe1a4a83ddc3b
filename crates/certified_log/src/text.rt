//! The whole text.
ghost use Rattle.std.specs.Prelude.{◌≡◌, ◌<◌, ◌++◌, ◌∷◌, [], IfOk, None, OnOk, length, string_bytes};
ghost use Rattle.certified_lines.specs.Certified.{Whole, text_of};
ghost use Rattle.certified_log.specs.Shown.{AreCertificates, certificate_at, whole_in};
ghost use Rattle.certified_log.specs.Texts.{IsCertifiedLog, certified_of, lines_of, shown_lines};
ghost use Rattle.core_state.specs.States.{machine_of};
ghost use Rattle.run_report.specs.Reports.{steps_of};
ghost use Rattle.trace_laws.specs.Told.{StandsYet, entry_steps};
ghost use Rattle.window_model.specs.Windows.{window_count};

use crate::certs::certificates;
use crate::looks::answer_in;
use crate::shown::are_shown;
use crate::written::write_certificate;
use core_state::{CoreState, Event};
use dual_certificate::Cert;
use run_report::{write_line, write_step, write_word};
use schedule_reader::Name;
use std::alloc::{AllocError, Global};

/// The log of what shows, with the whole set of each committed window and a certificate of it, if
/// the search finds one. There is one label for each operation, in order.
///
/// An error is want of memory. The certificates cost what decoding all windows does.
pub fn certified_text(
    alloc: Global,
    core: &CoreState,
    labels: &[Name],
) -> Result<String, AllocError>
    requires { length core.now.task.operations ≡ length labels.now }
    ensures { IfOk result (λ text. IsCertifiedLog core.now.task labels.now (steps_of core.now)
        (string_bytes text)) }
{
    let certs = certificates(alloc, core)?;
    let text = text_with(alloc, core, labels, &certs);
    drop(certs);
    text
}

/// The same, with these certificates.
fn text_with(
    alloc: Global,
    core: &CoreState,
    labels: &[Name],
    certs: &[Option<Cert>],
) -> Result<String, AllocError>
    requires certs { AreCertificates core.now certs.now }
    requires labels { length core.now.task.operations ≡ length labels.now }
    ensures { IfOk result (λ text. IsCertifiedLog core.now.task labels.now (steps_of core.now)
        (string_bytes text)) }
{
    are_shown(core, labels, certs);
    let mut text = String::new(alloc);
    write_text(&mut text, core, labels, certs)?;
    Ok(text)
}

/// Appends the text.
fn write_text(
    text: &mut String,
    core: &CoreState,
    labels: &[Name],
    certs: &[Option<Cert>],
) -> Result<(), AllocError>
    ensures { OnOk result (string_bytes text.new ≡ string_bytes text.old
        ++ certified_of labels.now (whole_in core.now) (certificate_at certs.now)
        (steps_of core.now)) }
{
    write_word(text, "log 1 certified\n")?;
    write_entries(text, core, labels, certs)?;
    write_word(text, "end log\n")?;
    Ok(())
}

/// The lines of what shows.
fn write_entries(
    text: &mut String,
    core: &CoreState,
    labels: &[Name],
    certs: &[Option<Cert>],
) -> Result<(), AllocError>
    ensures { OnOk result (string_bytes text.new ≡ string_bytes text.old
        ++ text_of (lines_of labels.now (whole_in core.now) (certificate_at certs.now)
        (steps_of core.now))) }
{
    core.is_state();
    for entry in core.journal() {
        write_entry(text, core, labels, certs, *entry)?;
    }
    Ok(())
}

/// The lines of an entry that shows, and nothing of any other.
fn write_entry(
    text: &mut String,
    core: &CoreState,
    labels: &[Name],
    certs: &[Option<Cert>],
    entry: Event,
) -> Result<(), AllocError>
    requires { StandsYet core.now.task core.now.kept (machine_of core.now) entry }
    ensures { OnOk result (string_bytes text.new ≡ string_bytes text.old
        ++ text_of (lines_of labels.now (whole_in core.now) (certificate_at certs.now)
        (entry_steps core.now.task core.now.kept entry))) }
{
    core.is_state();
    write_step(text, core, labels, entry)?;
    match entry {
        Event::Committed(_, window) => write_shown(text, core, certs, window),
        Event::Arrived(_) => Ok(()),
        Event::Released(_, _) => Ok(()),
        Event::Claimed(_, _) => Ok(()),
        Event::Held(_) => Ok(()),
        Event::Stale(_, _) => Ok(()),
        Event::Verified(_, _) => Ok(()),
        Event::Poisoned(_, _) => Ok(()),
        Event::Dropped(_) => Ok(()),
    }
}

/// The whole set of a committed window, and its certificate, where there is one.
fn write_shown(
    text: &mut String,
    core: &CoreState,
    certs: &[Option<Cert>],
    window: u32,
) -> Result<(), AllocError>
    requires { window < window_count core.now.task.plan }
    ensures { OnOk result (string_bytes text.new ≡ string_bytes text.old
        ++ text_of (shown_lines (whole_in core.now window) (certificate_at certs.now window))) }
{
    write_whole(text, core, window)?;
    match certs.get(window as usize) {
        Some(Some(cert)) => write_certificate(text, cert),
        Some(None) | None => Ok(()),
    }
}

/// The whole set of a window, which is none before it is committed.
fn write_whole(text: &mut String, core: &CoreState, window: u32) -> Result<(), AllocError>
    requires { window < window_count core.now.task.plan }
    ensures { OnOk result (string_bytes text.new ≡ string_bytes text.old
        ++ text_of (Whole (whole_in core.now window) ∷ [])) }
{
    match answer_in(core, window) {
        Some(decoded) => write_line(text, "whole", decoded.set.as_slice()),
        None => write_line(text, "whole", &[]),
    }
}
