//! Why not all is printed.

use std::alloc::{AllocError, AllocFailed};
use std::io;

#[derive(Debug, Drop)]
pub(crate) enum Failure {
    Io,
    Memory,
    /// There is no such name.
    Name,
    /// There is no plan, or it leaves an operation too early.
    Plan,
    /// The schedule isn't accepted.
    Schedule,
}

impl From<AllocError> for Failure {
    fn from(_: AllocError) -> Failure {
        Failure::Memory
    }
}

impl<T: Drop> From<AllocFailed<T>> for Failure {
    fn from(_: AllocFailed<T>) -> Failure {
        Failure::Memory
    }
}

impl From<io::Error> for Failure {
    fn from(_: io::Error) -> Failure {
        Failure::Io
    }
}
