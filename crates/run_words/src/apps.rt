//! What clap is given of each command.
ghost use Rattle.std.specs.Prelude.{◌≡◌, ◌≢◌, false, map, true, IfErr, IfOk};
ghost use Rattle.clap.specs.Words.{app_of, kind_of, rule_of};
ghost use Rattle.run_words.specs.Apps.{app_for, are_taken, bare_app, flag_option, rows_for, rows_in, text_option, with_guesses, with_windows};

use crate::WordsError;
use crate::command::CommandName;
use clap::error::ErrorKind;
use clap::{Arg, ArgAction, ArgMatches, Command, Error};
use std::alloc::{AllocError, Global};

/// The texts that the words after a command's name give its options.
pub(crate) fn matches_for<'a>(
    alloc: Global,
    name: CommandName,
    words: &'a [&'a str],
) -> Result<ArgMatches<'a>, WordsError>
    ensures rows { IfOk result (λ m. rows_in m ≡ rows_for name (map (λ w. w.now) words.entry.now)) }
    ensures taken { IfOk result (λ _. are_taken name (map (λ w. w.now) words.entry.now) ≡ true) }
    ensures usage { IfErr result (λ error. error ≡ WordsError.Usage →
        are_taken name (map (λ w. w.now) words.entry.now) ≡ false) }
{
    let Ok(command) = app_for(alloc, name) else {
        return Err(WordsError::Memory);
    };
    match command.try_get_matches_from(words) {
        Ok(matches) => Ok(matches),
        Err(error) => Err(refusal(&error)),
    }
}

/// Why words are refused.
fn refusal(error: &Error) -> WordsError
    ensures { result ≡ WordsError.Usage → kind_of error.now ≢ ErrorKind.OutOfMemory }
{
    if error.kind() == ErrorKind::OutOfMemory {
        WordsError::Memory
    } else {
        WordsError::Usage
    }
}

/// The options of a command.
#[tactic(auto, unfolding(crate::specs::Apps::app_for))]
fn app_for<'a>(alloc: Global, name: CommandName) -> Result<Command<'a>, AllocError>
    ensures { IfOk result (λ c. app_of c ≡ app_for name) }
{
    match name {
        CommandName::Decode => with_guesses(alloc, with_windows(alloc, bare(alloc, "decode"))?)?
            .arg(text(alloc, "workers"))?
            .arg(flag(alloc, "trace"))?
            .arg(flag(alloc, "certify")),
        CommandName::Replay => with_guesses(alloc, with_windows(alloc, bare(alloc, "replay"))?),
        CommandName::Plan => with_windows(alloc, bare(alloc, "plan")),
        CommandName::Make => bare(alloc, "make")
            .arg(text(alloc, "distance"))?
            .arg(text(alloc, "patches"))?
            .arg(text(alloc, "slots"))?
            .arg(text(alloc, "seed")),
    }
}

/// Adds the options of a plan.
fn with_windows<'a>(alloc: Global, command: Command<'a>) -> Result<Command<'a>, AllocError>
    ensures { IfOk result (λ c. app_of c ≡ with_windows (app_of command.entry)) }
{
    command
        .arg(text(alloc, "plan"))?
        .arg(text(alloc, "commit"))?
        .arg(text(alloc, "buffer"))
}

/// Adds the options of guesses.
fn with_guesses<'a>(alloc: Global, command: Command<'a>) -> Result<Command<'a>, AllocError>
    ensures { IfOk result (λ c. app_of c ≡ with_guesses (app_of command.entry)) }
{
    command
        .arg(text(alloc, "predict"))?
        .arg(text(alloc, "retries"))
}

/// A command without options.
fn bare<'a>(alloc: Global, name: &'a str) -> Command<'a>
    ensures { app_of result ≡ bare_app name.entry.now }
{
    Command::new(alloc, name)
        .no_binary_name(true)
        .disable_help_flag(true)
        .disable_version_flag(true)
}

/// An option that takes one text.
fn text<'a>(alloc: Global, name: &'a str) -> Arg<'a>
    ensures rule { rule_of result ≡ text_option name.entry.now }
    ensures local { result.global ≡ false }
{
    Arg::new(alloc, name).long(name).action(ArgAction::Set)
}

/// An option that takes none.
fn flag<'a>(alloc: Global, name: &'a str) -> Arg<'a>
    ensures rule { rule_of result ≡ flag_option name.entry.now }
    ensures local { result.global ≡ false }
{
    Arg::new(alloc, name).long(name).action(ArgAction::SetTrue)
}
