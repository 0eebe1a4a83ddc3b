//! Why a header or a row was not taken.

ghost use Rattle.std.specs.Prelude.{◌≡◌};

use std::alloc::{AllocError, AllocFailed};
use thiserror::Error;

/// Why no header was taken.
#[derive(Clone, Copy, Debug, PartialEq, Eq, Error)]
pub enum HeaderError {
    /// The input ended in this line, before the line `rounds` did.
    #[error("the input ended in line {line}, within the header")]
    Ended { line: u32 },
    #[error("reading failed")]
    ReadFault,
    #[error("out of memory")]
    Memory,
}

impl<T: Drop> From<AllocFailed<T>> for HeaderError {
    ghost use Rattle.syndrome_source.specs.declared.error.HeaderError.{HeaderError};

    ghost from_gives = { λ _ error. error ≡ HeaderError.Memory };

    fn from(_: AllocFailed<T>) -> HeaderError {
        HeaderError::Memory
    }
}

/// What is wrong with a row, by its first offending byte.
#[derive(Clone, Copy, Debug, PartialEq, Eq)]
pub enum RowKind {
    /// The line feed comes too early.
    Short,
    /// A further `0` or `1` stands in place of the line feed.
    Long,
    /// A byte that is no `0`, `1` or line feed.
    Byte,
    /// A byte after the last row.
    Trailing,
}

/// Why no row was taken.
#[derive(Clone, Copy, Debug, PartialEq, Eq, Error)]
pub enum RowError {
    #[error("row {kind:?} in line {line}")]
    Fault { line: u32, kind: RowKind },
    /// The input ended before the row was whole.
    #[error("the input ended in line {line}")]
    Ended { line: u32 },
    #[error("reading failed")]
    ReadFault,
    #[error("out of memory")]
    Memory,
}

impl From<AllocError> for RowError {
    ghost use Rattle.syndrome_source.specs.declared.error.RowError.{RowError};

    ghost from_gives = { λ _ error. error ≡ RowError.Memory };

    fn from(_: AllocError) -> RowError {
        RowError::Memory
    }
}
