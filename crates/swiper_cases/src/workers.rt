//! With how many workers and by which guesses a case is run.

use case_lines::word_of;
use std::alloc::{AllocError, Global};

/// How many workers a case's words ask for.
#[derive(Clone, Copy)]
pub(crate) enum Asked {
    /// One, or nothing is decoded by workers.
    One,
    Several,
    /// They decode, and don't say by how many workers.
    Any,
}

/// How many workers these words ask for.
pub(crate) fn asked_by(words: &str) -> Asked {
    let mut words = words.split_whitespace();
    if words.next() != Some("decode") {
        return Asked::One;
    }
    while let Some(word) = words.next() {
        if word == "--workers" {
            return asked_by_value(words.next());
        }
        if let Some(value) = word.strip_prefix("--workers=") {
            return asked_by_value(Some(value));
        }
    }
    Asked::Any
}

/// How many workers the value of the option asks for.
fn asked_by_value(value: Option<&str>) -> Asked {
    if value == Some("1") {
        Asked::One
    } else {
        Asked::Several
    }
}

/// What guesses in a run.
#[derive(Clone, Copy)]
pub(crate) enum Guesser<'a> {
    /// The predictor of this name.
    Named(&'a str),
    /// One that always guesses a flip, which no words name.
    Flipping,
}

/// What a run asks for beside what the case's words say.
#[derive(Clone, Copy)]
pub(crate) enum Manner<'a> {
    AsItSays,
    /// So many workers.
    By(u8),
    Guessing {
        workers: u8,
        guesser: Guesser<'a>,
        retries: u8,
    },
}

/// The words of a run in this manner.
pub(crate) fn words_for(
    alloc: Global,
    words: &str,
    manner: Manner<'_>,
) -> Result<String, AllocError> {
    let (command, options) = word_of(words);
    match manner {
        Manner::AsItSays => String::from_str(alloc, words),
        Manner::By(workers) => { format!(in alloc; "{command} --workers {workers} {options}") }
        Manner::Guessing {
            workers,
            guesser: Guesser::Named(predictor),
            retries,
        } => format!(in alloc;
            "{command} --workers {workers} --predict {predictor} --retries {retries} {options}"
        ),
        Manner::Guessing {
            workers,
            guesser: Guesser::Flipping,
            retries,
        } => format!(in alloc; "{command} --workers {workers} --retries {retries} {options}"),
    }
}

/// A case's name, with the manner of the run.
pub(crate) fn name_for(
    alloc: Global,
    name: &str,
    manner: Manner<'_>,
) -> Result<String, AllocError> {
    match manner {
        Manner::AsItSays => String::from_str(alloc, name),
        Manner::By(1) => format!(in alloc; "{name}, with 1 worker"),
        Manner::By(workers) => format!(in alloc; "{name}, with {workers} workers"),
        Manner::Guessing {
            workers,
            guesser,
            retries,
        } => format!(in alloc;
            "{name}, with workers {workers}, predictor {} and retries {retries}",
            name_of(guesser)
        ),
    }
}

/// The predictor's name.
fn name_of(guesser: Guesser<'_>) -> &str {
    match guesser {
        Guesser::Named(name) => name,
        Guesser::Flipping => "that guesses flips",
    }
}
