//! What is read of a script.

use replay_model::ScriptLine;

/// What was read of a script.
#[derive(Clone, Copy, Debug, PartialEq, Eq)]
pub enum Found {
    /// A line with its line feed.
    Line(ScriptLine),
    /// A line in which the input ended. Nothing is left to be read.
    Last(ScriptLine),
    /// Nothing: the input ended after the last line feed.
    End,
}
