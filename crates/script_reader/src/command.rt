//! The command that a line spells.
ghost use Rattle.std.specs.Prelude.{◌≡◌};
ghost use Rattle.replay_model.specs.Scripts.{command_of, finish_of};

use replay_model::ScriptLine;
use schedule_reader::{is_number, number_of};

/// The command that a line without its line feed spells.
pub(crate) fn command_of(line: &[u8]) -> Option<ScriptLine>
    ensures { result ≡ command_of line.now }
{
    if line == b"arrive".as_slice() {
        Some(ScriptLine::Arrive)
    } else if line == b"turn".as_slice() {
        Some(ScriptLine::Turn)
    } else {
        finish_of(line)
    }
}

/// The ticket to be finished: `finish`, one space and a number of 1 to 9 digits.
fn finish_of(line: &[u8]) -> Option<ScriptLine>
    ensures { result ≡ finish_of line.now }
{
    let digits = line.strip_prefix(b"finish ")?;
    if is_number(digits) {
        Some(ScriptLine::Finish(number_of(digits)))
    } else {
        None
    }
}
