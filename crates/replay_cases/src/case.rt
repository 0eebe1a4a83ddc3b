//! One script, replayed.
ghost use Rattle.std.specs.Prelude.{◌≤◌};
ghost use Rattle.run_header.specs.Refusals.{AreInRange};

use crate::always::Always;
use port_io::{MemPort, TapeByte};
use replay_run::{End, replay};
use run_header::{Opening, PlanSizes, open_schedule};
use run_rounds::{PutError, SlotReader};
use std::alloc::{AllocError, Global};
use window_core::Core;
use window_plan::PlanKind;

/// The bytes that can be put.
const ROOM: u64 = 1_000_000;

/// The most that the number of the line `rounds` can be.
const MOST_LINES: u32 = 1_048_579;

/// The most often that a window may be given up and still be claimed on a guess.
const MOST_RETRIES: u32 = 8;

/// What a replay of this input answers, and what it puts. A window is claimed on a guess as long as
/// it was given up fewer times than `retries`.
pub(crate) fn replayed(alloc: Global, input: &[u8], retries: u32) -> Result<String, AllocError> {
    let input = Vec::from_slice(alloc, input)?;
    let mut port = MemPort::new(alloc, input, ROOM, Vec::new(alloc), Vec::new(alloc))?;
    let answer = answer(alloc, &mut port, retries.min(MOST_RETRIES));
    shown(alloc, answer, port.tape())
}

/// What the replay answers; `None` where there is no schedule or no memory to begin with.
fn answer(alloc: Global, port: &mut MemPort, retries: u32) -> Option<Result<End, PutError>>
    requires { retries ≤ 8 }
{
    let Ok(opening) = open_schedule(alloc, port, small_windows()) else {
        return None;
    };
    let Opening {
        program,
        map,
        setting,
    } = opening;
    if program.schedule().rounds_line > MOST_LINES {
        return None;
    }
    let Ok(mut reader) = SlotReader::new(alloc, &program, &map) else {
        return None;
    };
    let Ok(core) = Core::start(alloc, setting, retries) else {
        return None;
    };
    Some(replay(alloc, port, &mut reader, core, &Always))
}

/// Windows of one slot, without a buffer.
fn small_windows() -> PlanSizes
    ensures { AreInRange result }
{
    PlanSizes {
        kind: PlanKind::Sliding,
        commit: Some(1),
        buffer: Some(0),
    }
}

/// An answer in one line, and after it what was put.
fn shown(
    alloc: Global,
    answer: Option<Result<End, PutError>>,
    tape: &[TapeByte],
) -> Result<String, AllocError> {
    let mut text = match answer {
        Some(Ok(end)) => format!(in alloc; "{end:?}\n")?,
        Some(Err(error)) => format!(in alloc; "{error:?}\n")?,
        None => String::from_str(alloc, "nothing to replay\n")?,
    };
    for byte in tape {
        if let TapeByte::Sent(byte) = *byte {
            text.push(char::from(byte))?;
        }
    }
    Ok(text)
}
