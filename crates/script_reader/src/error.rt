//! Why no line of a script was taken.

use thiserror::Error;

/// Why no line was taken. Lines are numbered over the whole input.
#[derive(Clone, Copy, Debug, PartialEq, Eq, Error)]
pub enum ScriptError {
    /// This line is none that may stand there.
    #[error("no line of a script in line {line}")]
    Fault { line: u32 },
    /// The input ended in this line, in which `script` was due.
    #[error("the input ended in line {line}, before the script")]
    Ended { line: u32 },
    #[error("reading failed")]
    ReadFault,
}
