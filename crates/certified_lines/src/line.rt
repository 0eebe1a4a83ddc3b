//! Lines as they are read, and why none was.
ghost use Rattle.std.specs.Prelude.{◌≡◌};
ghost use Rattle.certified_lines.specs.Certified.{Stepped};
ghost use Rattle.certified_lines.specs.Read.{line_in};
ghost use Rattle.log_reader.specs.Steps.{step_of};

use detector_graph::EdgeSet;
use log_reader::LogStep;
use schedule_reader::Name;
use std::alloc::{AllocError, AllocFailed};
use thiserror::Error;

/// A line of a log with certificates.
#[derive(Drop)]
pub enum CertLine {
    /// The first line.
    Start,
    /// This slot arrived.
    Arrive(u32),
    /// This window was committed with these edges.
    Commit(u32, EdgeSet),
    /// The whole set of the window that was committed, of which it kept a part.
    Whole(EdgeSet),
    /// A number for each member of the window's problem.
    Vertex(Vec<i64>),
    /// The number of an odd set of members, and its members by their places.
    OddSet(i64, Vec<u32>),
    /// The operation of this label was released with this bit.
    Released(Name, bool),
    /// The last line.
    Finish,
}

/// Why bytes were not read as a line.
#[derive(Clone, Copy, Debug, PartialEq, Eq, Error)]
pub enum LineError {
    /// They are no line of a log with certificates.
    #[error("no line of a log with certificates")]
    Fault,
    #[error("out of memory")]
    Memory,
}

impl From<AllocError> for LineError {
    ghost use Rattle.std.specs.Prelude.{◌≡◌};
    ghost use Rattle.certified_lines.specs.declared.line.LineError.{LineError};

    ghost from_gives = { λ _ error. error ≡ LineError.Memory };

    fn from(_: AllocError) -> LineError {
        LineError::Memory
    }
}

impl<T: Drop> From<AllocFailed<T>> for LineError {
    ghost use Rattle.std.specs.Prelude.{◌≡◌};
    ghost use Rattle.certified_lines.specs.declared.line.LineError.{LineError};

    ghost from_gives = { λ _ error. error ≡ LineError.Memory };

    fn from(_: AllocFailed<T>) -> LineError {
        LineError::Memory
    }
}

/// The line of a step.
pub(crate) fn line_of(step: LogStep) -> CertLine
    ensures { line_in result ≡ Stepped (step_of step) }
{
    match step {
        LogStep::Arrive(slot) => CertLine::Arrive(slot),
        LogStep::Commit(window, edges) => CertLine::Commit(window, edges),
        LogStep::Released(label, bit) => CertLine::Released(label, bit),
    }
}
