//! Runs the cases on standard input, those that decode with several numbers of workers. It prints a
//! line for each run that gives something else than is expected, with the first line that differs,
//! and then how many cases there are and how many differ.
//!
//! The head of the stored cases, `stdin`, says how they are written.
#![tactic(auto)]

mod always;
mod asking;
mod case;
mod held;
mod made;
mod player;
mod reader;
mod refusal;
#[cfg(test)]
mod tests;
mod trial;
mod workers;

use crate::player::Player;
use crate::refusal::Refusal;
use case_lines::Fault;
use std::alloc::Global;
use std::io::{self, BufRead, BufReader};
use std::process::ExitCode;
use std::rt::Runtime;
use std::sync::Wait;
use std::thread::Threads;

fn main(rt: HostRuntime) -> ExitCode {
    let mut number = 0;
    match play_all(&rt, rt.alloc(), &mut number) {
        Ok(status) => ExitCode::from(status),
        Err(fault) => {
            let _ = println!(rt; "line {number}: {fault}");
            ExitCode::from(code_of(&fault))
        }
    }
}

/// The program's status where a line is at fault, reading or writing fails, or memory is wanting.
fn code_of(fault: &Fault<Refusal>) -> u8 {
    match fault {
        Fault::Malformed(_) | Fault::Refused(_) => 1,
        Fault::Io => 2,
        Fault::Memory => 3,
    }
}

/// Plays the cases on standard input, and notes how many lines were read. The program's status.
fn play_all<R: Runtime + Threads + Wait + Sync>(
    rt: &R,
    alloc: Global,
    number: &mut u32,
) -> Result<u8, Fault<Refusal>> {
    let mut player = Player::new(alloc)?;
    let status = play_lines(rt, alloc, &mut player, number);
    drop(player);
    status
}

fn play_lines<R: Runtime + Threads + Wait + Sync>(
    rt: &R,
    alloc: Global,
    player: &mut Player,
    number: &mut u32,
) -> Result<u8, Fault<Refusal>> {
    let input = BufReader::new(alloc, rt.reader())?;
    for line in input.lines(alloc) {
        *number = number.saturating_add(1);
        play_line(rt, alloc, player, line)?;
    }
    rt.print(player.end(alloc)?.as_str())?;
    Ok(player.status())
}

/// Hands on a line, where it could be read, and prints what comes of it.
fn play_line<R: Runtime + Threads + Wait + Sync>(
    rt: &R,
    alloc: Global,
    player: &mut Player,
    line: io::Result<String>,
) -> Result<(), Fault<Refusal>> {
    let text = player.take(rt, alloc, line?.as_str())?;
    rt.print(text.as_str())?;
    Ok(())
}
