//! The options of a command, by the texts that the words give.
ghost use Rattle.std.specs.Prelude.{◌≡◌, ◌≤◌, ◌-◌, IfSome, codes, option_map};
ghost use Rattle.clap.specs.Words.{first_of};
ghost use Rattle.run_words.specs.Apps.{rows_in};
ghost use Rattle.run_words.specs.Commands.{IsDecode, IsGuessing, IsInRange, IsMake, IsReplay, IsWindows, command_in, decode_in, guessing_in, is_set, make_in, number_given, or_default, replay_in, required, windows_in};
ghost use Rattle.run_words.specs.Values.{distance_in, kind_in, number_in, predictor_in, too_large};

use crate::command::CommandName;
use crate::values::{distance_in, kind_in, number_in, predictor_in, size_in};
use crate::{
    Command, DecodeOptions, Guessing, MakeOptions, PredictorKind, ReplayOptions, WindowOptions,
};
use clap::ArgMatches;
use window_plan::PlanKind;

/// The most slots of a block.
const MOST_SLOTS: u32 = 4_096;

/// The most edges of a buffer.
const MOST_BUFFER: u32 = 4_096;

/// A command with its options, where each value is of its form and in its range.
pub(crate) fn command_in(name: CommandName, matches: &ArgMatches<'_>) -> Option<Command>
    ensures value { result ≡ command_in name (rows_in matches.now) }
    ensures range { IfSome result IsInRange }
{
    match name {
        CommandName::Decode => Some(Command::Decode(decode_in(matches)?)),
        CommandName::Replay => Some(Command::Replay(replay_in(matches)?)),
        CommandName::Plan => Some(Command::Plan(windows_in(matches)?)),
        CommandName::Make => Some(Command::Make(make_in(matches)?)),
    }
}

fn decode_in(matches: &ArgMatches<'_>) -> Option<DecodeOptions>
    ensures value { result ≡ decode_in (rows_in matches.now) }
    ensures range { IfSome result IsDecode }
{
    let windows = windows_in(matches)?;
    let guessing = guessing_in(matches)?;
    let workers = size_or(matches, "workers", 4, 1, 8)?;
    Some(DecodeOptions {
        windows,
        guessing,
        workers,
        trace: is_set(matches, "trace"),
        certify: is_set(matches, "certify"),
    })
}

fn replay_in(matches: &ArgMatches<'_>) -> Option<ReplayOptions>
    ensures value { result ≡ replay_in (rows_in matches.now) }
    ensures range { IfSome result IsReplay }
{
    let windows = windows_in(matches)?;
    let guessing = guessing_in(matches)?;
    Some(ReplayOptions { windows, guessing })
}

fn windows_in(matches: &ArgMatches<'_>) -> Option<WindowOptions>
    ensures value { result ≡ windows_in (rows_in matches.now) }
    ensures range { IfSome result IsWindows }
{
    let kind = kind_or_sliding(matches)?;
    let commit = size_given(matches, "commit", 1, MOST_SLOTS)?;
    let buffer = size_given(matches, "buffer", 0, MOST_BUFFER)?;
    Some(WindowOptions {
        kind,
        commit,
        buffer,
    })
}

fn guessing_in(matches: &ArgMatches<'_>) -> Option<Guessing>
    ensures value { result ≡ guessing_in (rows_in matches.now) }
    ensures range { IfSome result IsGuessing }
{
    let predictor = predictor_or_near(matches)?;
    let retries = size_or(matches, "retries", 1, 0, 8)?;
    Some(Guessing { predictor, retries })
}

fn make_in(matches: &ArgMatches<'_>) -> Option<MakeOptions>
    ensures value { result ≡ make_in (rows_in matches.now) }
    ensures range { IfSome result IsMake }
{
    let distance = distance_in(text_of(matches, "distance")?.as_bytes())?;
    let patches = size_in(1, 64, text_of(matches, "patches")?.as_bytes())?;
    let slots = size_in(2, 4_096, text_of(matches, "slots")?.as_bytes())?;
    let seed = number_in(0, u64::MAX, text_of(matches, "seed")?.as_bytes())?;
    Some(MakeOptions {
        distance,
        patches,
        slots,
        seed,
    })
}

/// The kind of plan, which is sliding where none is named.
fn kind_or_sliding(matches: &ArgMatches<'_>) -> Option<PlanKind>
    ensures { result ≡
        or_default kind_in PlanKind.Sliding (first_of (codes "plan") (rows_in matches.now)) }
{
    match text_of(matches, "plan") {
        Some(text) => kind_in(text),
        None => Some(PlanKind::Sliding),
    }
}

/// The predictor, which is `near` where none is named.
fn predictor_or_near(matches: &ArgMatches<'_>) -> Option<PredictorKind>
    ensures { result ≡ or_default predictor_in PredictorKind.Near
        (first_of (codes "predict") (rows_in matches.now)) }
{
    match text_of(matches, "predict") {
        Some(text) => predictor_in(text),
        None => Some(PredictorKind::Near),
    }
}

/// A number from `low` to `high`, or the default where the words don't have it.
fn size_or(matches: &ArgMatches<'_>, name: &str, default: u32, low: u32, high: u32) -> Option<u32>
    requires least { low ≤ default }
    requires most { default ≤ high }
    ensures value { result ≡
        or_default (number_in low high) default (first_of name.now (rows_in matches.now)) }
    ensures range { IfSome result (λ n. (low ≤ n) × (n ≤ high)) }
{
    match text_of(matches, name) {
        Some(text) => size_in(low, high, text.as_bytes()),
        None => Some(default),
    }
}

/// A number from `low` to `high`, where the words have it.
fn size_given(matches: &ArgMatches<'_>, name: &str, low: u32, high: u32) -> Option<Option<u32>>
    ensures value { result ≡ number_given low high (first_of name.now (rows_in matches.now)) }
    ensures range { IfSome result (λ given. IfSome given (λ n. (low ≤ n) × (n ≤ high))) }
{
    match text_of(matches, name) {
        Some(text) => Some(Some(size_in(low, high, text.as_bytes())?)),
        None => Some(None),
    }
}

/// Whether a flag is among the words.
fn is_set(matches: &ArgMatches<'_>, name: &str) -> bool
    ensures { result ≡ is_set name.now (rows_in matches.now) }
{
    match text_of(matches, name) {
        Some(text) => text == "true",
        None => false,
    }
}

/// The text of an option, where the words have it.
fn text_of<'a>(matches: &ArgMatches<'a>, name: &str) -> Option<&'a str>
    ensures { option_map (λ s. s.now) result ≡ first_of name.now (rows_in matches.now) }
{
    matches.get_str(name)
}
