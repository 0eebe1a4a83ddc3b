//! The line that reports a fault.
ghost use Rattle.std.specs.Prelude.{◌≡◌, ◌++◌, OnOk, string_bytes};
ghost use Rattle.report_model.specs.Faults.{OfPlan, TooEarly, fault_text, row_kind_word};
ghost use Rattle.run_header.specs.Openings as opening;
ghost use Rattle.syndrome_source.specs.Rows.{kind_of};
ghost use Rattle.swiper_run.specs.Faults.{fault_of, kind_text};
ghost use Rattle.window_model.specs.Gates.{WindowTooLarge};

use run_header::Refusal;
use run_report::write_label;
use schedule_reader::{FaultKind, Name};
use std::alloc::AllocError;
use std::fmt::Write;
use syndrome_source::RowKind;

/// What ends a run before the end of its rows.
#[derive(Drop)]
pub(crate) enum Fault {
    /// The schedule is refused.
    Refused(Refusal),
    /// The row in this line has a byte that doesn't fit.
    Row { line: u32, kind: RowKind },
    /// The input ended in this line.
    Ended { line: u32 },
    /// Reading failed.
    Read,
}

/// Writes the fault's line.
pub(crate) fn fault_line(text: &mut String, fault: &Fault) -> Result<(), AllocError>
    ensures { OnOk result (string_bytes text.new
        ≡ string_bytes text.old ++ fault_text (fault_of fault.now)) }
{
    match fault {
        Fault::Refused(refusal) => refusal_line(text, refusal),
        Fault::Row { line, kind } => {
            let kind = row_kind(*kind);
            writeln!(text, "fault row {kind} line {line}")
        }
        Fault::Ended { line } => writeln!(text, "fault ended line {line}"),
        Fault::Read => writeln!(text, "fault read"),
    }
}

/// Writes the line of a refused schedule.
fn refusal_line(text: &mut String, refusal: &Refusal) -> Result<(), AllocError>
    ensures { OnOk result (string_bytes text.new
        ≡ string_bytes text.old ++ fault_text (opening.fault_of refusal.now)) }
{
    match refusal {
        Refusal::Schedule(fault) => {
            let kind = fault_kind(fault.kind);
            let line = fault.line;
            writeln!(text, "fault schedule {kind} line {line}")
        }
        Refusal::TooLarge { detectors } => {
            writeln!(text, "fault schedule S13 TooLarge detectors {detectors}")
        }
        Refusal::TooManyWindows { windows } => {
            writeln!(text, "fault schedule P1 TooManyWindows {windows}")
        }
        Refusal::TooManyLinks { links } => {
            writeln!(text, "fault schedule P2 TooManyLinks {links}")
        }
        Refusal::WindowTooLarge { window, detectors } => window_line(text, *window, *detectors),
        Refusal::TooEarly { label, ready } => early_line(text, label, *ready),
    }
}

/// Writes the line of a window with too many detectors.
fn window_line(text: &mut String, window: u32, detectors: u64) -> Result<(), AllocError>
    ensures { OnOk result (string_bytes text.new
        ≡ string_bytes text.old ++ fault_text (OfPlan (WindowTooLarge window detectors))) }
{
    writeln!(
        text,
        "fault schedule P3 WindowTooLarge window {window} detectors {detectors}"
    )
}

/// Writes the line of a condition that comes too early.
fn early_line(text: &mut String, label: &Name, ready: u32) -> Result<(), AllocError>
    ensures { OnOk result (string_bytes text.new
        ≡ string_bytes text.old ++ fault_text (TooEarly label.now ready)) }
{
    text.push_str("fault schedule P4 TooEarly op ")?;
    write_label(text, label)?;
    writeln!(text, " ready {ready}")
}

fn row_kind(kind: RowKind) -> &'static str
    ensures { result.now ≡ row_kind_word (kind_of kind) }
{
    match kind {
        RowKind::Short => "short",
        RowKind::Long => "long",
        RowKind::Byte => "byte",
        RowKind::Trailing => "trailing",
    }
}

/// A fault's number and name.
fn fault_kind(kind: FaultKind) -> &'static str
    ensures { result.now ≡ kind_text kind }
{
    match kind {
        FaultKind::BadLine => "S1 BadLine",
        FaultKind::BadNumber => "S2 BadNumber",
        FaultKind::UnknownName => "S3 UnknownName",
        FaultKind::Repeated => "S4 Repeated",
        FaultKind::BadDistance => "S5 BadDistance",
        FaultKind::TileTaken => "S6 TileTaken",
        FaultKind::BadLife => "S7 BadLife",
        FaultKind::NotNeighbours => "S8 NotNeighbours",
        FaultKind::MergeOutsideLife => "S9 MergeOutsideLife",
        FaultKind::MergesTouch => "S10 MergesTouch",
        FaultKind::BadCond => "S11 BadCond",
        FaultKind::Missing => "S12 Missing",
        FaultKind::TooMany => "S14 TooMany",
    }
}
