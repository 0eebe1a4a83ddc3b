//! Why a text was not read.
use std::alloc::{AllocError, AllocFailed};
use thiserror::Error;

/// Why a text was not read as a log.
#[derive(Clone, Copy, Debug, PartialEq, Eq, Error)]
pub enum LogError {
    /// This line is the first that no log has there. Lines are numbered from 1.
    #[error("no log has the line {line}")]
    Fault { line: u32 },
    #[error("out of memory")]
    Memory,
}

impl From<AllocError> for LogError {
    ghost use Rattle.std.specs.Prelude.{◌≡◌};
    ghost use Rattle.log_reader.specs.declared.error.LogError.{LogError};

    ghost from_gives = { λ _ error. error ≡ LogError.Memory };

    fn from(_: AllocError) -> LogError {
        LogError::Memory
    }
}

impl<T: Drop> From<AllocFailed<T>> for LogError {
    ghost use Rattle.std.specs.Prelude.{◌≡◌};
    ghost use Rattle.log_reader.specs.declared.error.LogError.{LogError};

    ghost from_gives = { λ _ error. error ≡ LogError.Memory };

    fn from(_: AllocFailed<T>) -> LogError {
        LogError::Memory
    }
}
