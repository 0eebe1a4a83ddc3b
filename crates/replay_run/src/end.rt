//! How a replay ends.
ghost use Rattle.std.specs.Prelude.{◌≡◌, ◌++◌, OnOk, string_bytes};
ghost use Rattle.report_model.specs.Faults.{row_kind_word};
ghost use Rattle.report_model.specs.Outcomes.{fault_line};
ghost use Rattle.syndrome_source.specs.Rows.{kind_of};
ghost use Rattle.replay_run.specs.Replies.{fault_at};

use std::alloc::AllocError;
use std::fmt::Write;
use syndrome_source::RowKind;

/// How a replay ended that had memory and could write. Lines are numbered over the whole input.
#[derive(Clone, Copy, Debug, PartialEq, Eq)]
pub enum End {
    /// The script was played to its end.
    Complete,
    /// The row in this line has a byte that doesn't fit.
    Row { line: u32, kind: RowKind },
    /// The input ended in this line, before the script.
    Ended { line: u32 },
    /// Reading failed.
    ReadFault,
    /// This line of the script is none, or can't be done.
    Script { line: u32 },
}

/// Appends the line of a fault, where the replay ended with one.
pub(crate) fn write_fault(text: &mut String, end: End) -> Result<(), AllocError>
    ensures { OnOk result (string_bytes text.new
        ≡ string_bytes text.old ++ fault_line (fault_at end)) }
{
    match end {
        End::Complete => Ok(()),
        End::Row { line, kind } => {
            let kind = row_kind(kind);
            writeln!(text, "fault row {kind} line {line}")
        }
        End::Ended { line } => writeln!(text, "fault ended line {line}"),
        End::ReadFault => writeln!(text, "fault read"),
        End::Script { line } => writeln!(text, "fault script line {line}"),
    }
}

fn row_kind(kind: RowKind) -> &'static str
    ensures { result.now ≡ row_kind_word (kind_of kind) }
{
    match kind {
        RowKind::Short => "short",
        RowKind::Long => "long",
        RowKind::Byte => "byte",
        RowKind::Trailing => "trailing",
    }
}
