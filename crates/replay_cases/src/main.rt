//! Replays scripts with a predictor that guesses a flip everywhere, and prints what each replay
//! answers and puts.
//!
//! The head of the stored cases, `stdin`, says how they are written.
#![tactic(auto)]

mod always;
mod case;
mod player;

use crate::player::Player;
use case_lines::answer_lines;
use std::process::ExitCode;

fn main(rt: HostRuntime) -> ExitCode {
    let mut player = Player::new(rt.alloc());
    answer_lines(&rt, rt.alloc(), &mut player)
}
