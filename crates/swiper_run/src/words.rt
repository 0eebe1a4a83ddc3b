//! What the words after the program's name ask for.
ghost use Rattle.std.specs.Prelude.{◌≡◌, IfErr, IfOk, None, Some, map, true};
ghost use Rattle.run_header.specs.Refusals.{AreInRange};
ghost use Rattle.run_words.specs.Commands as commands;
ghost use Rattle.run_words.specs.Commands.{IsWindows, is_named};
ghost use Rattle.swiper_run.specs.Words.{IsAskable, IsInRange, request_by, request_of, sizes_asked, sizes_of};

use run_header::PlanSizes;
use run_words::{
    Command, DecodeOptions, MakeOptions, ReplayOptions, WindowOptions, WordsError, command_of,
};
use std::alloc::Global;

/// What the words ask for.
#[derive(Clone, Copy)]
pub(crate) enum Request {
    /// Something of the schedule in the input.
    OfInput(Asked),
    /// To print an input that is made from a number.
    Make(MakeOptions),
}

/// What is asked of the schedule in the input.
#[derive(Clone, Copy)]
pub(crate) enum Asked {
    /// To decode with these options.
    Decode(DecodeOptions),
    /// To replay a script with these options.
    Replay(ReplayOptions),
    /// To print the plan.
    Plan(PlanSizes),
}

impl Asked {
    /// The kind and the sizes of the plan.
    pub(crate) fn sizes(&self) -> PlanSizes
        requires { IsAskable self.now }
        ensures value { result ≡ sizes_asked self.now }
        ensures range { AreInRange result }
    {
        match *self {
            Asked::Decode(options) => sizes_of(options.windows),
            Asked::Replay(options) => sizes_of(options.windows),
            Asked::Plan(sizes) => sizes,
        }
    }
}

/// What the words ask for.
#[tactic(auto, unfolding(crate::specs::Words::request_of))]
pub(crate) fn request_of(alloc: Global, words: &[&str]) -> Result<Request, WordsError>
    ensures request { IfOk result (λ r. request_of (map (λ w. w.now) words.now) ≡ Some r) }
    ensures range { IfOk result IsInRange }
    ensures usage { IfErr result (λ error. error ≡ WordsError.Usage →
        request_of (map (λ w. w.now) words.now) ≡ None) }
    ensures memory { IfErr result (λ error. error ≡ WordsError.Memory →
        is_named (map (λ w. w.now) words.now) ≡ true) }
{
    let command = command_of(alloc, words)?;
    Ok(request_by(command))
}

/// What a command asks for.
fn request_by(command: Command) -> Request
    requires { commands.IsInRange command }
    ensures value { result ≡ request_by command }
    ensures range { IsInRange result }
{
    match command {
        Command::Decode(options) => Request::OfInput(Asked::Decode(options)),
        Command::Replay(options) => Request::OfInput(Asked::Replay(options)),
        Command::Plan(windows) => Request::OfInput(Asked::Plan(sizes_of(windows))),
        Command::Make(options) => Request::Make(options),
    }
}

/// The kind and the sizes of a plan as the words give them.
pub(crate) fn sizes_of(windows: WindowOptions) -> PlanSizes
    requires { IsWindows windows }
    ensures value { result ≡ sizes_of windows }
    ensures range { AreInRange result }
{
    let WindowOptions {
        kind,
        commit,
        buffer,
    } = windows;
    PlanSizes {
        kind,
        commit,
        buffer,
    }
}
