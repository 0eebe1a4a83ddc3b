//! The command that words give.
ghost use Rattle.std.specs.Prelude.{◌≡◌, false, map, true, IfErr, IfOk, None, Some};
ghost use Rattle.run_words.specs.Commands.{IsInRange, command_of, command_with, is_named, name_of};

use crate::Command;
use crate::apps::matches_for;
use crate::command::CommandName;
use crate::options::command_in;
use std::alloc::Global;

/// Why words give no command.
#[derive(Clone, Copy, Debug, PartialEq, Eq)]
pub enum WordsError {
    /// They aren't accepted.
    Usage,
    /// Memory was wanting.
    Memory,
}

/// The command that the words after the program's name give, with its options.
///
/// The first word is `decode`, `replay`, `plan` or `make`. After it each option of the command may
/// come once, in any order, as `--name value` or `--name=value`, or `--trace` and `--certify`
/// alone. `make` has to have all of its options; where another isn't given it has its default.
///
/// # Errors
///
/// `Usage` exactly where the words aren't accepted and memory suffices to see it; `Memory` where it
/// is wanting, and never before the first word is known to be a command.
pub fn command_of(alloc: Global, words: &[&str]) -> Result<Command, WordsError>
    ensures accepted { IfOk result (λ command.
        command_of (map (λ w. w.now) words.now) ≡ Some command) }
    ensures usage { IfErr result (λ error. error ≡ WordsError.Usage →
        command_of (map (λ w. w.now) words.now) ≡ None) }
    ensures memory { IfErr result (λ error. error ≡ WordsError.Memory →
        is_named (map (λ w. w.now) words.now) ≡ true) }
    ensures range { IfOk result IsInRange }
{
    let Some((word, words)) = words.split_first() else {
        return Err(WordsError::Usage);
    };
    let Some(name) = name_of(word) else {
        return Err(WordsError::Usage);
    };
    command_with(alloc, name, words)
}

/// The command of a name and the words after it.
fn command_with(alloc: Global, name: CommandName, words: &[&str]) -> Result<Command, WordsError>
    ensures accepted { IfOk result (λ command.
        command_with name (map (λ w. w.now) words.now) ≡ Some command) }
    ensures usage { IfErr result (λ error. error ≡ WordsError.Usage →
        command_with name (map (λ w. w.now) words.now) ≡ None) }
    ensures range { IfOk result IsInRange }
{
    let matches = matches_for(alloc, name, words)?;
    let command = command_in(name, &matches);
    drop(matches);
    match command {
        Some(command) => Ok(command),
        None => Err(WordsError::Usage),
    }
}

/// The command of this name.
fn name_of(word: &str) -> Option<CommandName>
    ensures { result ≡ name_of word.now }
{
    match word {
        "decode" => Some(CommandName::Decode),
        "replay" => Some(CommandName::Replay),
        "plan" => Some(CommandName::Plan),
        "make" => Some(CommandName::Make),
        _ => None,
    }
}
