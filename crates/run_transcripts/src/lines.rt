//! The lines of a transcript.

use std::alloc::{AllocError, Global};

/// The part of a transcript in which a line stands.
#[derive(Clone, Copy, PartialEq, Eq)]
pub(crate) enum Part {
    /// Before the log.
    Before,
    /// Where the log or the trace begins or ends.
    Mark,
    Log,
    /// In the log after a commit: the whole set, and what shows it least.
    Shown,
    Trace,
    /// After the log, and not in the trace.
    After,
}

/// A line, and the part in which it stands.
#[derive(Clone, Copy)]
pub(crate) struct Line<'a> {
    pub(crate) part: Part,
    pub(crate) text: &'a str,
    /// The line after which it stands, where it shows a committed set least; else itself.
    pub(crate) step: &'a str,
}

/// The lines of a transcript, but for those that say how many bytes were taken before the next.
pub(crate) fn lines_of(alloc: Global, transcript: &str) -> Result<Vec<Line<'_>>, AllocError> {
    let mut lines = Vec::new(alloc);
    let mut within = Part::Before;
    for text in transcript.split('\n') {
        let (part, next) = parts_at(within, text);
        within = next;
        if !text.is_empty() && !text.starts_with("after ") {
            let step = step_of(&lines, part, text);
            lines.push(Line { part, text, step })?;
        }
    }
    Ok(lines)
}

/// The line after which a line stands that comes after these, if it shows a set least; else itself.
fn step_of<'a>(before: &[Line<'a>], part: Part, text: &'a str) -> &'a str {
    match before.last() {
        Some(last) if part == Part::Shown => last.step,
        _ => text,
    }
}

/// The part of a line that stands within or after a part, and that of the lines after it.
fn parts_at(within: Part, text: &str) -> (Part, Part) {
    match text {
        "| log 1" | "| log 1 certified" => (Part::Mark, Part::Log),
        "| trace 1" => (Part::Mark, Part::Trace),
        "| end log" | "| end trace" => (Part::Mark, Part::After),
        _ if within == Part::Log && shows_set(text) => (Part::Shown, within),
        _ => (within, within),
    }
}

/// Whether a line of the log shows a committed set least.
fn shows_set(text: &str) -> bool {
    matches!(put_words(text).0, "whole" | "vertex" | "set")
}

/// A line that was put: its first word, and what stands after it. Nothing of any other line.
pub(crate) fn put_words(text: &str) -> (&str, &str) {
    match text.strip_prefix("| ") {
        Some(put) => put.split_once(' ').unwrap_or((put, "")),
        None => ("", ""),
    }
}

/// Whether a transcript shows only a front of the output: a put failed, or there was no memory.
pub(crate) fn is_cut(transcript: &str) -> bool {
    transcript.starts_with("status 6 ") || transcript.starts_with("status 7 ")
}
