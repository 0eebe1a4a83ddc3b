//! The runs of a case, and what came of them.

use crate::asking::{ask, ask_flipping};
use crate::case::Case;
use crate::held::Held;
use crate::workers::{Asked, Guesser, Manner, asked_by, name_for, words_for};
use port_io::TapeByte;
use run_transcripts::{Shown, canonical, difference, late_release, trace_flaw, transcript};
use std::alloc::{AllocError, Global};
use std::sync::Wait;
use std::thread::Threads;
use swiper_run::{Gate, OpenGate};

/// How many workers decode a case whose words don't say it, after it was decoded by one.
const COUNTS: [u8; 3] = [2, 4, 8];

/// How many decode a case that is run by many guesses.
const ALL_COUNTS: [u8; 4] = [1, 2, 4, 8];

/// What guesses there.
const GUESSERS: [Guesser<'static>; 4] = [
    Guesser::Named("zero"),
    Guesser::Named("near"),
    Guesser::Named("seed:7"),
    Guesser::Flipping,
];

/// The most retries that can be asked for.
const MOST_RETRIES: u8 = 8;

/// What a run of a case gave.
#[derive(Drop)]
struct Run {
    /// The transcript as the case shows it.
    shown: String,
    /// All lines, and when they were put.
    whole: String,
}

/// Runs a case as often as its words ask for. A line for each run that differs from what is
/// expected.
pub(crate) fn played<R: Threads + Wait + Sync>(
    rt: &R,
    alloc: Global,
    case: &Case,
) -> Result<String, AllocError> {
    if let Some(times) = case.held {
        return held(rt, alloc, case, times);
    }
    match asked_by(case.words.as_str()) {
        Asked::One => exact(rt, alloc, case, Manner::AsItSays),
        Asked::Several => free(rt, alloc, case, Manner::AsItSays),
        Asked::Any if case.guesses => by_each_guess(rt, alloc, case),
        Asked::Any => by_each_count(rt, alloc, case),
    }
}

/// The same as by each count, with each predictor, and one that always guesses a flip, and all
/// numbers of retries.
fn by_each_guess<R: Threads + Wait + Sync>(
    rt: &R,
    alloc: Global,
    case: &Case,
) -> Result<String, AllocError> {
    let mut text = exact(rt, alloc, case, Manner::By(1))?;
    for guesser in GUESSERS {
        for retries in 0..=MOST_RETRIES {
            for workers in ALL_COUNTS {
                let manner = Manner::Guessing {
                    workers,
                    guesser,
                    retries,
                };
                text.push_str(&free(rt, alloc, case, manner)?)?;
            }
        }
    }
    Ok(text)
}

/// Where a run by one worker isn't exactly as expected, or one by several differs from it in more
/// than their number may change. A case that shows an order is run by one worker alone.
fn by_each_count<R: Threads + Wait + Sync>(
    rt: &R,
    alloc: Global,
    case: &Case,
) -> Result<String, AllocError> {
    let mut text = exact(rt, alloc, case, Manner::By(1))?;
    if case.shows_order() {
        return Ok(text);
    }
    for workers in COUNTS {
        text.push_str(&free(rt, alloc, case, Manner::By(workers))?)?;
    }
    Ok(text)
}

/// Where a run isn't exactly as expected.
fn exact<R: Threads + Wait + Sync>(
    rt: &R,
    alloc: Global,
    case: &Case,
    manner: Manner<'_>,
) -> Result<String, AllocError> {
    let found = run_of(rt, alloc, case, manner, &OpenGate)?;
    let name = name_for(alloc, case.name.as_str(), manner)?;
    difference(
        alloc,
        name.as_str(),
        case.expected.as_str(),
        found.shown.as_str(),
    )
}

/// Where a run by several workers isn't as expected: its canonical form, its trace, or when its
/// releases were put.
fn free<R: Threads + Wait + Sync>(
    rt: &R,
    alloc: Global,
    case: &Case,
    manner: Manner<'_>,
) -> Result<String, AllocError> {
    let found = run_of(rt, alloc, case, manner, &OpenGate)?;
    let name = name_for(alloc, case.name.as_str(), manner)?;
    flaws(alloc, name.as_str(), case, &found)
}

/// Runs a case so often in a row, and holds the decoding of window 0 until window 1 was decoded. A
/// line for each run that isn't as expected or in which that was not seen.
fn held<R: Threads + Wait + Sync>(
    rt: &R,
    alloc: Global,
    case: &Case,
    times: u64,
) -> Result<String, AllocError> {
    let mut text = String::new(alloc);
    for _ in 0..times {
        text.push_str(&held_once(rt, alloc, case)?)?;
    }
    Ok(text)
}

fn held_once<R: Threads + Wait + Sync>(
    rt: &R,
    alloc: Global,
    case: &Case,
) -> Result<String, AllocError> {
    let gate = Held::new();
    let found = run_of(rt, alloc, case, Manner::AsItSays, &gate)?;
    let name = case.name.as_str();
    let mut text = flaws(alloc, name, case, &found)?;
    if !gate.was_seen(rt) {
        writeln!(text, "case {name}: windows 0 and 1 weren't decoded at once")?;
    }
    Ok(text)
}

/// What isn't as expected in a run by several workers.
fn flaws(alloc: Global, name: &str, case: &Case, found: &Run) -> Result<String, AllocError> {
    let mut text = canonical_difference(alloc, name, case, found.shown.as_str())?;
    write_flaw(alloc, &mut text, name, found.whole.as_str())?;
    write_late(alloc, &mut text, name, case, found.whole.as_str())?;
    Ok(text)
}

/// What is wrong in the trace of a run, if something is.
fn write_flaw(
    alloc: Global,
    text: &mut String,
    name: &str,
    transcript: &str,
) -> Result<(), AllocError> {
    match trace_flaw(alloc, transcript)? {
        Some(flaw) => writeln!(text, "case {name}: in its trace are wrong the {flaw:?}"),
        None => Ok(()),
    }
}

/// The operation that is released too late in a run, if one is.
fn write_late(
    alloc: Global,
    text: &mut String,
    name: &str,
    case: &Case,
    transcript: &str,
) -> Result<(), AllocError> {
    let input = case.input(alloc)?;
    match late_release(alloc, &input, transcript)? {
        Some(label) => writeln!(text, "case {name}: {label} is released too late"),
        None => Ok(()),
    }
}

fn canonical_difference(
    alloc: Global,
    name: &str,
    case: &Case,
    found: &str,
) -> Result<String, AllocError> {
    let expected = canonical(alloc, case.expected.as_str())?;
    let found = canonical(alloc, found)?;
    difference(alloc, name, expected.as_str(), found.as_str())
}

/// Runs a case on a port of its own.
fn run_of<R: Threads + Wait + Sync, G: Gate + Sync>(
    rt: &R,
    alloc: Global,
    case: &Case,
    manner: Manner<'_>,
    gate: &G,
) -> Result<Run, AllocError> {
    let words = words_for(alloc, case.words.as_str(), manner)?;
    let words: Vec<&str> = words.as_str().split_whitespace().collect(alloc)?;
    let mut port = case.port(alloc)?;
    let status = match manner {
        Manner::Guessing {
            guesser: Guesser::Flipping,
            ..
        } => ask_flipping(rt, alloc, &words, &mut port, gate),
        _ => ask(rt, alloc, &words, &mut port, gate),
    };
    let found = shown(alloc, case, status.code(), port.tape());
    drop(port);
    found
}

/// The transcripts of a run.
fn shown(alloc: Global, case: &Case, status: u8, tape: &[TapeByte]) -> Result<Run, AllocError> {
    let shown = Shown {
        tail: case.tail,
        taken: case.shows_taken,
    };
    let whole = Shown {
        tail: None,
        taken: true,
    };
    Ok(Run {
        shown: transcript(alloc, status, tape, shown)?,
        whole: transcript(alloc, status, tape, whole)?,
    })
}
