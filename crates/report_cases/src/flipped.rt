//! The trace of a core on which each guess is a flip, and wrong.

use crate::always::Always;
use crate::failure::Failure;
use crate::script::{Brought, opened, play};
use replay_model::ScriptLine;
use run_report::trace_text;
use std::alloc::{AllocError, Global};
use window_core::Core;

/// Slots without defects.
const NO_DEFECTS: [Brought; 3] = [
    Brought {
        detectors: 4,
        defect: None,
        observables: 0,
    },
    Brought {
        detectors: 8,
        defect: None,
        observables: 0,
    },
    Brought {
        detectors: 4,
        defect: None,
        observables: 1,
    },
];

/// All windows are claimed at once, windows 1 and 2 on guesses; both are given up and claimed
/// again. One turn finds nothing to do.
const TO_THE_END: [ScriptLine; 20] = [
    ScriptLine::Arrive,
    ScriptLine::Arrive,
    ScriptLine::Arrive,
    ScriptLine::Turn,
    ScriptLine::Turn,
    ScriptLine::Turn,
    ScriptLine::Finish(0),
    ScriptLine::Finish(1),
    ScriptLine::Finish(2),
    ScriptLine::Turn,
    ScriptLine::Turn,
    ScriptLine::Turn,
    ScriptLine::Turn,
    ScriptLine::Finish(3),
    ScriptLine::Turn,
    ScriptLine::Turn,
    ScriptLine::Turn,
    ScriptLine::Finish(4),
    ScriptLine::Turn,
    ScriptLine::Turn,
];

/// The trace.
pub(crate) fn of_guessed_flips(alloc: Global) -> Result<String, Failure> {
    let mut core = opened(alloc)?;
    let text = traced(alloc, &mut core);
    drop(core);
    Ok(text?)
}

fn traced(alloc: Global, core: &mut Core) -> Result<String, AllocError> {
    play(alloc, core, &Always, &NO_DEFECTS, &TO_THE_END)?;
    trace_text(alloc, core.state(), &[])
}
