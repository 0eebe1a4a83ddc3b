//! The bytes of one line, taken from a port.
ghost use Rattle.std.specs.Prelude.{◌≡◌, [], ◌++◌, ◌∷◌, codes, IfErr, IfOk, IsErrOf, List, ℕ};
ghost use Rattle.port_io.specs.Port.{Rose};
ghost use Rattle.port_io.specs.Traffic.{KeepsCounts, Moves, taken};
ghost use Rattle.replay_model.specs.Scripts.{due_line};
ghost use Rattle.script_reader.specs.Lines.{IsEndOf, IsNotDue};

use crate::ScriptError;
use arrayvec::ArrayVec;
use port_io::{Port, Take};

/// The most bytes of a line, without its line feed.
pub(crate) const LINE_BYTES: usize = 32;

/// The most bytes that are taken for a line: with its line feed, or with one byte too many.
const MOST_TAKEN: usize = 33;

/// What ended the taking of a line.
#[derive(Clone, Copy, Debug, PartialEq, Eq)]
pub(crate) enum LineEnd {
    /// Its line feed.
    Whole,
    /// The end of input, after a byte or more.
    Last,
    /// The end of input, where no byte was left.
    Input,
    /// One byte more than a line may have.
    TooLong,
    /// A take that failed.
    Failed,
}

/// Takes a line's bytes, up to its line feed, to the end of input, or to the first byte too many.
pub(crate) fn take_line<P: Port>(port: &mut P, line: &mut ArrayVec<u8, LINE_BYTES>) -> LineEnd
    requires { line.old.items ≡ [] }
    ensures taken { (bytes : List ℕ) × Moves P.Port port.old port.new (taken bytes)
        × IsEndOf result line.new.items bytes (P.left port.new) }
    ensures fault { result ≡ LineEnd.Failed →
        Rose (P.read_faults port.old) (P.read_faults port.new) }
    ensures counts { KeepsCounts P.Port port.old port.new }
{
    for _ in 0..MOST_TAKEN {
        match port.take() {
            Take::Byte(b'\n') => return LineEnd::Whole,
            Take::Byte(byte) => {
                if line.is_full() {
                    return LineEnd::TooLong;
                }
                line.push(byte);
            }
            Take::End => {
                if line.is_empty() {
                    return LineEnd::Input;
                }
                return LineEnd::Last;
            }
            Take::Failed => return LineEnd::Failed,
        }
    }
    unreachable!()
}

/// Takes the line `script`, which is due in the line of this number.
pub(crate) fn take_due<P: Port>(port: &mut P, line: u32) -> Result<(), ScriptError>
    ensures due { IfOk result (λ _. Moves P.Port port.old port.new (taken due_line)) }
    ensures refused { IfErr result (λ error. (bytes : List ℕ)
        × Moves P.Port port.old port.new (taken bytes)
        × IsNotDue due_line line bytes (P.left port.new) error) }
    ensures fault { IsErrOf result ScriptError.ReadFault →
        Rose (P.read_faults port.old) (P.read_faults port.new) }
    ensures counts { KeepsCounts P.Port port.old port.new }
{
    for due in b"script\n" {
        take_byte(port, line, *due)?;
    }
    Ok(())
}

/// Takes the byte that is due.
fn take_byte<P: Port>(port: &mut P, line: u32, due: u8) -> Result<(), ScriptError>
    ensures due { IfOk result (λ _. Moves P.Port port.old port.new (taken (due ∷ []))) }
    ensures refused { IfErr result (λ error. (bytes : List ℕ)
        × Moves P.Port port.old port.new (taken bytes)
        × ((more : List ℕ) → IsNotDue (due ∷ more) line bytes (P.left port.new) error)) }
    ensures fault { IsErrOf result ScriptError.ReadFault →
        Rose (P.read_faults port.old) (P.read_faults port.new) }
    ensures counts { KeepsCounts P.Port port.old port.new }
{
    match port.take() {
        Take::Byte(byte) => {
            if byte == due {
                Ok(())
            } else {
                Err(ScriptError::Fault { line })
            }
        }
        Take::End => Err(ScriptError::Ended { line }),
        Take::Failed => Err(ScriptError::ReadFault),
    }
}
