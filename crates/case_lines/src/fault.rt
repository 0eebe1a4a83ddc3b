//! Why not all lines are answered.
ghost use Rattle.std.specs.Prelude.{◌<◌};

use std::alloc::{AllocError, AllocFailed};
use std::{fmt, io};

/// What is wrong with how a line is written.
#[derive(Clone, Copy, Debug)]
pub enum Flaw {
    /// A line that is none of those that may stand there.
    UnknownLine,
    /// A number that is none, or is left out.
    BadNumber,
    /// A backslash with nothing after it that can be escaped.
    BadEscape,
    /// The input ends before what it has begun.
    NotEnded,
}

/// Why a program ends before its input does.
#[derive(Debug, Drop)]
pub enum Fault<R> {
    /// A line that isn't written as lines are.
    Malformed(Flaw),
    /// A line that says what can't be.
    Refused(R),
    Io,
    Memory,
}

impl<R> Fault<R> {
    /// The program's status: 1 for a line at fault, 2 for a failed read or write, 3 for want of
    /// memory.
    pub(crate) fn code(&self) -> u8
        ensures { 0 < result }
    {
        match self {
            Fault::Malformed(_) | Fault::Refused(_) => 1,
            Fault::Io => 2,
            Fault::Memory => 3,
        }
    }
}

impl<R: fmt::Debug> fmt::Display for Fault<R> {
    fn fmt<W: fmt::Write>(&self, f: &mut fmt::Formatter<W>) -> fmt::Result {
        match self {
            Fault::Malformed(flaw) => write!(f, "malformed, {flaw:?}"),
            Fault::Refused(refusal) => write!(f, "refused, {refusal:?}"),
            Fault::Io => write!(f, "reading or writing failed"),
            Fault::Memory => write!(f, "no memory"),
        }
    }
}

impl<R> From<AllocError> for Fault<R> {
    fn from(_: AllocError) -> Fault<R> {
        Fault::Memory
    }
}

impl<R, T: Drop> From<AllocFailed<T>> for Fault<R> {
    fn from(_: AllocFailed<T>) -> Fault<R> {
        Fault::Memory
    }
}

impl<R> From<io::Error> for Fault<R> {
    fn from(_: io::Error) -> Fault<R> {
        Fault::Io
    }
}
