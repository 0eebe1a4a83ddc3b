//! Commands with their options.

use window_plan::PlanKind;

/// What the program is asked to do.
#[derive(Clone, Copy, Debug, PartialEq, Eq)]
pub enum Command {
    /// Decode a schedule's rows as they come.
    Decode(DecodeOptions),
    /// Decode them event by event, as a script says.
    Replay(ReplayOptions),
    /// Print the windows of a schedule.
    Plan(WindowOptions),
    /// Print an input for `decode`.
    Make(MakeOptions),
}

/// How the windows of a schedule are laid.
#[derive(Clone, Copy, Debug, PartialEq, Eq)]
pub struct WindowOptions {
    pub kind: PlanKind,
    /// The slots of a block, 1 to 4,096, where the words give them.
    pub commit: Option<u32>,
    /// The edges of a buffer, 0 to 4,096, where the words give them.
    pub buffer: Option<u32>,
}

/// The options of `decode`.
#[derive(Clone, Copy, Debug, PartialEq, Eq)]
pub struct DecodeOptions {
    pub windows: WindowOptions,
    pub guessing: Guessing,
    /// The threads that decode windows, 1 to 8.
    pub workers: u32,
    /// Whether the trace is printed.
    pub trace: bool,
    /// Whether the log has what shows the set of each committed window least.
    pub certify: bool,
}

/// The options of `replay`.
#[derive(Clone, Copy, Debug, PartialEq, Eq)]
pub struct ReplayOptions {
    pub windows: WindowOptions,
    pub guessing: Guessing,
}

/// How the results of windows are guessed that aren't decoded yet.
#[derive(Clone, Copy, Debug, PartialEq, Eq)]
pub struct Guessing {
    pub predictor: PredictorKind,
    /// How many of a window's guesses may be wrong before it is decoded without any, 0 to 8.
    pub retries: u32,
}

/// What guesses a bit.
#[derive(Clone, Copy, Debug, PartialEq, Eq)]
pub enum PredictorKind {
    /// Always false.
    Zero,
    /// True where the detector's value is 1 and an edge that the source owns joins it with a
    /// detector of value 1 in the source's cell.
    Near,
    /// A bit drawn for the source and the detector from this seed.
    Seeded(u64),
}

/// The options of `make`.
#[derive(Clone, Copy, Debug, PartialEq, Eq)]
pub struct MakeOptions {
    /// 3, 5, 7, 9 or 11.
    pub distance: u32,
    /// 1 to 64.
    pub patches: u32,
    /// 2 to 4,096.
    pub slots: u32,
    pub seed: u64,
}

/// The first word.
#[derive(Clone, Copy, Debug, PartialEq, Eq)]
pub(crate) enum CommandName {
    Decode,
    Replay,
    Plan,
    Make,
}
