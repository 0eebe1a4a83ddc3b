//! What a run says after the rows that it read.
ghost use Rattle.std.specs.Prelude.{◌≡◌, IfOk, None, OnOk, length, map, option_map, string_bytes};
ghost use Rattle.core_state.specs.States.{CoreTable, events_of};
ghost use Rattle.surface_model.specs.Schedules.{CondLine};
ghost use Rattle.report_model.specs.Outcomes.{output_with};
ghost use Rattle.window_model.specs.Decoder.{Syndrome};
ghost use Rattle.window_model.specs.Progress.{Fits};
ghost use Rattle.run_report.specs.Names.{printed_names};
ghost use Rattle.run_report.specs.Reports.{traced};
ghost use Rattle.swiper_run.specs.Answers.{IsReportOf, fault_of_end, status_of_end};
ghost use Rattle.swiper_run.specs.Faults.{fault_of};
ghost use Rattle.swiper_run.specs.Guessed.{traced_of};
ghost use Rattle.swiper_run.specs.Printed.{IsPrintedLog};

use crate::Status;
use crate::fault::{Fault, fault_line};
use certified_log::certified_text;
use decode_rounds::Rounds;
use measure_map::Observable;
use run_report::{Trace, log_text, write_after_log};
use run_rounds::labels_of;
use run_words::DecodeOptions;
use schedule_reader::{CondItem, Name};
use slot_decoder::SlotDecoder;
use std::alloc::{AllocError, Global};
use syndrome_source::RowError;

/// The log, with certificates where they are asked for, the trace where it is asked for, the
/// frames where all is done, the summary, and the line of a fault.
pub(crate) fn report(
    alloc: Global,
    rounds: &Rounds,
    conds: &[CondItem],
    observables: &[Observable],
    options: &DecodeOptions,
) -> Result<String, AllocError>
    requires labels { length rounds.now.decoder.progress.task.operations ≡ length conds.now }
    requires names { length observables.now
        ≡ length rounds.now.decoder.progress.task.raw_slots }
    ensures { IfOk result (λ text. IsReportOf (map (λ (c : CondLine). c.label) conds.now)
        (printed_names observables.now) rounds.now.decoder options.now rounds.now.end
        (string_bytes text)) }
{
    let labels = labels_of(alloc, conds)?;
    let mut text = printed_log(alloc, &rounds.decoder, &labels, options.certify)?;
    write_rest(&mut text, rounds, &labels, observables, options.trace)?;
    Ok(text)
}

/// The log, with certificates where they are asked for.
fn printed_log(
    alloc: Global,
    decoder: &SlotDecoder,
    labels: &[Name],
    certify: bool,
) -> Result<String, AllocError>
    requires { length decoder.now.progress.task.operations ≡ length labels.now }
    ensures { IfOk result (λ text. IsPrintedLog certify decoder.now.progress.task labels.now
        decoder.now.progress.steps (string_bytes text)) }
{
    let core = decoder.core();
    if certify {
        certified_text(alloc, core.state(), labels)
    } else {
        log_text(alloc, core.state(), labels)
    }
}

/// Appends what stands after the log.
fn write_rest(
    text: &mut String,
    rounds: &Rounds,
    labels: &[Name],
    observables: &[Observable],
    trace: bool,
) -> Result<(), AllocError>
    requires { length observables.now ≡ length rounds.now.decoder.progress.task.raw_slots }
    ensures { OnOk result ((s : Syndrome) → Fits s rounds.now.decoder.progress →
        string_bytes text.new ≡ output_with (string_bytes text.old)
        rounds.now.decoder.progress.task s labels.now (printed_names observables.now)
        rounds.now.decoder.progress.steps (traced_of trace rounds.now.decoder.events)
        (fault_of_end rounds.now.end)) }
{
    write_decoded(text, &rounds.decoder, labels, observables, trace)?;
    match fault_of(&rounds.end) {
        Some(fault) => fault_line(text, &fault),
        None => Ok(()),
    }
}

/// Appends the trace where it is asked for, the frames where all is done, and the summary.
fn write_decoded(
    text: &mut String,
    decoder: &SlotDecoder,
    labels: &[Name],
    observables: &[Observable],
    trace: bool,
) -> Result<(), AllocError>
    requires { length observables.now ≡ length decoder.now.progress.task.raw_slots }
    ensures { OnOk result ((s : Syndrome) → Fits s decoder.now.progress →
        string_bytes text.new ≡ output_with (string_bytes text.old) decoder.now.progress.task s
        labels.now (printed_names observables.now) decoder.now.progress.steps
        (traced_of trace decoder.now.events) None) }
{
    let core = decoder.core();
    write_after_log(text, core.state(), labels, observables, trace_where(trace))
}

fn trace_where(asked: bool) -> Trace
    ensures { (c : CoreTable) → traced result c ≡ traced_of asked (events_of c) }
{
    if asked { Trace::Asked } else { Trace::Spared }
}

/// The fault that is reported of the end of the rows.
fn fault_of(end: &Result<(), RowError>) -> Option<Fault>
    ensures { option_map fault_of result ≡ fault_of_end end.now }
{
    match *end {
        Ok(()) | Err(RowError::Memory) => None,
        Err(RowError::Fault { line, kind }) => Some(Fault::Row { line, kind }),
        Err(RowError::Ended { line }) => Some(Fault::Ended { line }),
        Err(RowError::ReadFault) => Some(Fault::Read),
    }
}

/// The status of a run whose rows ended so.
pub(crate) fn status_of(end: &Result<(), RowError>) -> Status
    ensures { result ≡ status_of_end end.now }
{
    match *end {
        Ok(()) => Status::Ok,
        Err(RowError::Fault { .. }) => Status::Row,
        Err(RowError::Ended { .. }) => Status::Ended,
        Err(RowError::ReadFault) => Status::ReadFault,
        Err(RowError::Memory) => Status::Memory,
    }
}
