//! What does not change with the number of workers.

use crate::lines::{Line, Part, is_cut, lines_of, put_words};
use std::alloc::{AllocError, Global};

/// Where a line stands in a canonical form.
#[derive(Clone, Copy, PartialEq, Eq)]
enum Place {
    Head,
    Release,
    Mark,
    Arrival,
    Released,
    Commit,
    Rest,
    /// In a trace, which isn't shown.
    Hidden,
}

/// The places that are shown, in order.
const SHOWN: [Place; 7] = [
    Place::Head,
    Place::Release,
    Place::Mark,
    Place::Arrival,
    Place::Released,
    Place::Commit,
    Place::Rest,
];

/// The same text for transcripts of `decode` that differ only in what may change with the number of
/// workers: when the releases were put, the order of the commits and releases in the log, each with
/// what shows its set least, and what stands within the trace. Where only a front of the output was
/// put, it is the status alone.
pub fn canonical(alloc: Global, transcript: &str) -> Result<String, AllocError> {
    if is_cut(transcript) {
        let (status, _) = transcript.split_once(" took").unwrap_or((transcript, ""));
        return String::from_str(alloc, status);
    }
    let lines = lines_of(alloc, transcript)?;
    let mut form = String::new(alloc);
    for place in SHOWN {
        add_place(alloc, &mut form, &lines, place)?;
    }
    Ok(form)
}

/// Adds the lines of a place, in order where their order is free.
fn add_place(
    alloc: Global,
    form: &mut String,
    lines: &[Line<'_>],
    place: Place,
) -> Result<(), AllocError> {
    let mut placed: Vec<Line<'_>> = lines
        .iter()
        .filter(|line| place_of(line) == place)
        .copied()
        .collect(alloc)?;
    if matches!(place, Place::Release | Place::Released | Place::Commit) {
        placed.sort_by_key(|line| line.step)?;
    }
    add_lines(form, &placed)
}

fn add_lines(form: &mut String, lines: &[Line<'_>]) -> Result<(), AllocError> {
    for line in lines {
        form.push_str(line.text)?;
        form.push('\n')?;
    }
    Ok(())
}

fn place_of(line: &Line<'_>) -> Place {
    match (line.part, put_words(line.text).0) {
        (Part::Trace, _) => Place::Hidden,
        (Part::Mark, _) => Place::Mark,
        (Part::Before, "release") => Place::Release,
        (Part::Before, _) => Place::Head,
        (Part::Log, "arrive") => Place::Arrival,
        (Part::Log, "released") => Place::Released,
        (Part::Log, "commit") | (Part::Shown, _) => Place::Commit,
        _ => Place::Rest,
    }
}
