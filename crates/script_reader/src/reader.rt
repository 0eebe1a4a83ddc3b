//! The reader of a script.
ghost use Rattle.std.specs.Prelude.{◌≡◌, ◌≤◌, ◌<◌, ◌+◌, ◌-◌, ◌^◌, ◌⊎◌, IfErr, IfOk, IfSome, IsErrOf, List, None, Some, ℕ};
ghost use Rattle.port_io.specs.Port.{Rose};
ghost use Rattle.port_io.specs.Traffic.{KeepsCounts, Moves, taken};
ghost use Rattle.replay_model.specs.Scripts.{command_of, due_line, most_lines};
ghost use Rattle.script_reader.specs.Lines.{IsNoLine, IsNotDue, IsRead, MayRead, after_read, at};

use crate::command::command_of;
use crate::taking::{LINE_BYTES, LineEnd, take_due, take_line};
use crate::{Found, ScriptError};
use arrayvec::ArrayVec;
use port_io::Port;
use replay_model::ScriptLine;
use std::marker::Model;

/// The most lines of a script.
const MOST_LINES: u32 = 1_000_000;

/// A reader of a script, seen as the number of the line that it reads next, and how many lines may
/// still come.
#[derive(Drop)]
pub struct ScriptReader {
    line: u32,
    room: u32,
}

impl Model for ScriptReader {
    ghost use Rattle.std.specs.Prelude.{◌≤◌, ◌+◌, ◌-◌, ◌^◌};
    ghost use Rattle.script_reader.specs.Lines.{At, at};

    ghost Value = { At };

    ghost view = { λ r. at r.line r.room };

    ghost invariant = { λ r. r.line + r.room ≤ 2 ^ 32 - 1 };
}

impl ScriptReader {
    /// Takes the line `script`, which has this number. The reader stands after it.
    ///
    /// # Errors
    ///
    /// `Fault` after the first byte that doesn't fit, and `Ended` where the input ends before the
    /// line feed.
    pub fn begin<P: Port>(port: &mut P, line: u32) -> Result<ScriptReader, ScriptError>
        requires { line + 1 + most_lines ≤ 2 ^ 32 - 1 }
        ensures due { IfOk result (λ reader. Moves P.Port port.old port.new (taken due_line)) }
        ensures stands { IfOk result (λ reader. reader ≡ at (line + 1) most_lines) }
        ensures refused { IfErr result (λ error. (bytes : List ℕ)
            × Moves P.Port port.old port.new (taken bytes)
            × IsNotDue due_line line bytes (P.left port.new) error) }
        ensures fault { IsErrOf result ScriptError.ReadFault →
            Rose (P.read_faults port.old) (P.read_faults port.new) }
        ensures counts { KeepsCounts P.Port port.old port.new }
    {
        take_due(port, line)?;
        Ok(ScriptReader {
            line: line + 1,
            room: MOST_LINES,
        })
    }

    /// The number of the line that it reads next.
    pub fn line(&self) -> u32
        ensures { result ≡ self.now.line }
    {
        self.line
    }

    /// Takes the next line, and tells its command. In the last line the end of input may stand for
    /// the line feed.
    ///
    /// # Errors
    ///
    /// `Fault` where the line is no command, after its line feed or after 33 bytes of it, and where
    /// it is one line too many. After any error the reader stands as before.
    pub fn next_line<P: Port>(&mut self, port: &mut P) -> Result<Found, ScriptError>
        ensures read { IfOk result (λ found. (bytes : List ℕ)
            × Moves P.Port port.old port.new (taken bytes)
            × IsRead self.old found bytes (P.left port.new)) }
        ensures stands { IfOk result (λ found. self.new ≡ after_read self.old found) }
        ensures refused { IfErr result (λ error. (bytes : List ℕ)
            × Moves P.Port port.old port.new (taken bytes)
            × IsNoLine self.old bytes (P.left port.new) error) }
        ensures kept { IfErr result (λ _. self.new ≡ self.old) }
        ensures fault { IsErrOf result ScriptError.ReadFault →
            Rose (P.read_faults port.old) (P.read_faults port.new) }
        ensures counts { KeepsCounts P.Port port.old port.new }
    {
        let found = read_line(port, self.line, self.room)?;
        if found != Found::End {
            self.line += 1;
            self.room -= 1;
        }
        Ok(found)
    }
}

/// Reads the line of this number, where so many may still come.
fn read_line<P: Port>(port: &mut P, line: u32, room: u32) -> Result<Found, ScriptError>
    ensures read { IfOk result (λ found. (bytes : List ℕ)
        × Moves P.Port port.old port.new (taken bytes)
        × IsRead (at line room) found bytes (P.left port.new)) }
    ensures some { IfOk result (MayRead room) }
    ensures refused { IfErr result (λ error. (bytes : List ℕ)
        × Moves P.Port port.old port.new (taken bytes)
        × IsNoLine (at line room) bytes (P.left port.new) error) }
    ensures fault { IsErrOf result ScriptError.ReadFault →
        Rose (P.read_faults port.old) (P.read_faults port.new) }
    ensures counts { KeepsCounts P.Port port.old port.new }
{
    let mut bytes = ArrayVec::<u8, LINE_BYTES>::new();
    match take_line(port, &mut bytes) {
        LineEnd::Whole => match command_in(bytes.as_slice(), room) {
            Some(command) => Ok(Found::Line(command)),
            None => Err(ScriptError::Fault { line }),
        },
        LineEnd::Last => match command_in(bytes.as_slice(), room) {
            Some(command) => Ok(Found::Last(command)),
            None => Err(ScriptError::Fault { line }),
        },
        LineEnd::Input => Ok(Found::End),
        LineEnd::TooLong => Err(ScriptError::Fault { line }),
        LineEnd::Failed => Err(ScriptError::ReadFault),
    }
}

/// The command of a line, where so many lines may still come.
fn command_in(line: &[u8], room: u32) -> Option<ScriptLine>
    ensures some { IfSome result (λ command. (command_of line.now ≡ Some command) × (0 < room)) }
    ensures none { result ≡ None → (command_of line.now ≡ None) ⊎ (room ≡ 0) }
{
    match command_of(line) {
        Some(command) if room > 0 => Some(command),
        _ => None,
    }
}
