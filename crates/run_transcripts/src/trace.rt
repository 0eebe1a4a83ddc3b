//! What a trace has to show, whatever the order in which the windows were claimed.

use crate::lines::{Line, Part, is_cut, lines_of, put_words};
use std::alloc::{AllocError, Global};

/// What is wrong with a trace.
#[derive(Clone, Copy, Debug, PartialEq, Eq)]
pub enum TraceFlaw {
    /// A ticket isn't claimed in its turn, or no line or several lines `hold` or `stale` after its
    /// claim have it.
    Tickets,
    /// The arrivals, commits and releases aren't those of the log, in its order.
    Steps,
    /// The last line doesn't count what the others show.
    Counts,
}

/// What is wrong with the trace that a transcript shows whole, if it shows one.
pub fn trace_flaw(alloc: Global, transcript: &str) -> Result<Option<TraceFlaw>, AllocError> {
    if is_cut(transcript) || !transcript.contains("\n| trace 1\n") {
        return Ok(None);
    }
    let lines = lines_of(alloc, transcript)?;
    let flaw = flaw_in(alloc, &lines);
    drop(lines);
    flaw
}

fn flaw_in(alloc: Global, lines: &[Line<'_>]) -> Result<Option<TraceFlaw>, AllocError> {
    Ok(if !each_ticket_ends(alloc, lines)? {
        Some(TraceFlaw::Tickets)
    } else if !has_steps_of_log(lines) {
        Some(TraceFlaw::Steps)
    } else if !is_counted(alloc, lines)? {
        Some(TraceFlaw::Counts)
    } else {
        None
    })
}

fn each_ticket_ends(alloc: Global, lines: &[Line<'_>]) -> Result<bool, AllocError> {
    let mut runs = Vec::new(alloc);
    for line in lines {
        if line.part == Part::Trace && !follows(&mut runs, line.text)? {
            return Ok(false);
        }
    }
    Ok(runs.iter().all(|runs| !*runs))
}

/// Follows the tickets, of which each runs or has ended, over one more line. Whether it may come.
fn follows(runs: &mut Vec<bool>, text: &str) -> Result<bool, AllocError> {
    let (word, rest) = put_words(text);
    match word {
        "claim" => {
            let is_next = ticket_of(rest) == Some(runs.len() as u64);
            runs.push(true)?;
            Ok(is_next)
        }
        "hold" | "stale" => Ok(ends(runs, ticket_of(rest))),
        _ => Ok(true),
    }
}

/// Ends a ticket. Whether it ran.
fn ends(runs: &mut Vec<bool>, ticket: Option<u64>) -> bool {
    match ticket {
        Some(ticket) if ticket < runs.len() as u64 => {
            let ran = runs[ticket as usize];
            runs[ticket as usize] = false;
            ran
        }
        _ => false,
    }
}

/// The ticket with which a line goes on after its first word.
fn ticket_of(rest: &str) -> Option<u64> {
    let (ticket, _) = rest.split_once(' ').unwrap_or((rest, ""));
    ticket.parse::<u64>().ok()
}

fn has_steps_of_log(lines: &[Line<'_>]) -> bool {
    let mut steps = lines.iter().filter(|line| line.part == Part::Log);
    for line in lines {
        if is_visible(line)
            && !steps
                .next()
                .is_some_and(|step| is_step(line.text, step.text))
        {
            return false;
        }
    }
    steps.next().is_none()
}

/// Whether a line of the trace has a line of the log.
fn is_visible(line: &Line<'_>) -> bool {
    line.part == Part::Trace && matches!(put_words(line.text).0, "arrive" | "commit" | "release")
}

/// Whether a visible line of the trace and a line of the log say the same.
fn is_step(event: &str, step: &str) -> bool {
    match event.strip_prefix("| release ") {
        Some(released) => step.strip_prefix("| released ") == Some(released),
        None => event == step,
    }
}

fn is_counted(alloc: Global, lines: &[Line<'_>]) -> Result<bool, AllocError> {
    let counts = format!(in alloc;
        "| counts claims {} guessed {} poisoned {} dropped {} stale {}",
        count(lines, "claim"),
        guesses(lines),
        count(lines, "poison"),
        count(lines, "drop"),
        count(lines, "stale"),
    )?;
    let last = lines.iter().filter(|line| line.part == Part::Trace).last();
    Ok(last.is_some_and(|line| line.text == counts.as_str()))
}

/// How many lines of the trace begin with a word.
fn count(lines: &[Line<'_>], word: &str) -> usize {
    lines
        .iter()
        .filter(|line| line.part == Part::Trace && put_words(line.text).0 == word)
        .count()
}

/// How many links of the claims are guesses.
fn guesses(lines: &[Line<'_>]) -> usize {
    let mut guesses = 0usize;
    for line in lines {
        if line.part == Part::Trace {
            let marks = line.text.bytes().filter(|byte| *byte == b'?').count();
            guesses = guesses.saturating_add(marks);
        }
    }
    guesses
}
