// Scripts of the speculative decoder: their lines, their faults, and what each line does.
// Definitions that the other crates cite.
#![tactic(auto)]

/// A line of a script.
#[derive(Clone, Copy, Debug, PartialEq, Eq)]
pub enum ScriptLine {
    /// The next slot arrives.
    Arrive,
    /// One turn is done, the first that is enabled.
    Turn,
    /// The problem of the ticket of this number is decoded, and its result is reported.
    Finish(u32),
}
