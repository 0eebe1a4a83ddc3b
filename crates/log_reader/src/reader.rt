//! The reading of a whole log.
ghost use Rattle.std.specs.Prelude.{◌≡◌, ◌<◌, ◌-◌, ◌++◌, ◌^◌, List, length, map, IfErr, IfOk};
ghost use Rattle.report_model.specs.Logs.{IsLog, LoggedStep, first_line};
ghost use Rattle.log_reader.specs.Steps.{AreReadAs, IsRefusal, step_of};

use crate::step_line::step_of;
use crate::word::cut;
use crate::{LogError, LogStep};
use std::alloc::Global;

/// Reads the log that a text is. What is read is spelled by the text, byte for byte, and what a
/// text spells is read.
///
/// # Errors
///
/// `Fault` at the first line that no log has: one that is none of the format's, that stands in
/// another's place, that lacks its line feed or is missing, or that follows `end log`. It costs
/// time in proportion to the text, and memory for the steps alone.
pub fn read_log(alloc: Global, text: &[u8]) -> Result<Vec<LogStep>, LogError>
    requires { length text.now < 2 ^ 32 - 1 }
    ensures found { IfOk result (λ steps. IsLog text.now (map step_of steps.items)) }
    ensures only { (steps : List LoggedStep) → IsLog text.now steps →
        AreReadAs (λ found. map step_of found.items) steps result }
    ensures fault { IfErr result (λ error. IsRefusal text.now error) }
{
    read_text(alloc, text)
}

fn read_text(alloc: Global, text: &[u8]) -> Result<Vec<LogStep>, LogError>
    requires { length text.now < 2 ^ 32 - 1 }
    ensures found { IfOk result (λ steps. IsLog text.now (map step_of steps.items)) }
    ensures fault { IfErr result (λ error. IsRefusal text.now error) }
{
    let Some(rest) = text.strip_prefix(b"log 1\n") else {
        return Err(LogError::Fault { line: 1 });
    };
    read_steps(alloc, text, rest)
}

/// Reads the text after its first line.
fn read_steps(alloc: Global, text: &[u8], rest: &[u8]) -> Result<Vec<LogStep>, LogError>
    requires text_is { text.now ≡ first_line ++ rest.now }
    requires few { length text.now < 2 ^ 32 - 1 }
    ensures found { IfOk result (λ steps. IsLog text.now (map step_of steps.items)) }
    ensures fault { IfErr result (λ error. IsRefusal text.now error) }
{
    let mut steps = Vec::new(alloc);
    let mut left = rest;
    let mut number = 2;
    while let Some((line, behind)) = cut(b'\n', left) {
        if line == b"end log".as_slice() {
            if !behind.is_empty() {
                return Err(LogError::Fault { line: number + 1 });
            }
            return Ok(steps);
        }
        let Some(step) = step_of(alloc, line)? else {
            return Err(LogError::Fault { line: number });
        };
        steps.push(step)?;
        left = behind;
        number += 1;
    }
    Err(LogError::Fault { line: number })
}
