//! Whether releases were put in time.

use std::alloc::{AllocError, Global};

/// The label of an operation whose line wasn't put before the first byte of its slot's line was
/// taken, if there is one. The transcript shows all lines, and after how many bytes taken they were
/// put.
pub fn late_release(
    alloc: Global,
    input: &[u8],
    transcript: &str,
) -> Result<Option<String>, AllocError> {
    // a byte that is in no text is the last that is taken, so what follows it may be moved
    let input = String::from_utf8_lossy(alloc, input)?;
    match first_late(input.as_str(), transcript) {
        Some(label) => Ok(Some(String::from_str(alloc, label)?)),
        None => Ok(None),
    }
}

fn first_late<'a>(input: &'a str, transcript: &str) -> Option<&'a str> {
    let rounds = input.split('\n').position(is_rounds)?;
    let taken = taken_of(transcript);
    for line in input.split('\n').take(rounds) {
        if let Some((label, slot)) = operation_of(line) {
            let begin = begin_of(input, rounds.saturating_add(1).saturating_add(slot));
            if taken > begin && !is_put_by(transcript, label, begin) {
                return Some(label);
            }
        }
    }
    None
}

/// Whether a line is the last of a header.
fn is_rounds(line: &str) -> bool {
    let mut fields = line.split_whitespace();
    fields.next() == Some("rounds") && fields.next().is_none()
}

/// How many bytes were taken.
fn taken_of(transcript: &str) -> u64 {
    let (status, _) = transcript.split_once('\n').unwrap_or((transcript, ""));
    match status.split_once(" took ") {
        Some((_, taken)) => taken.parse::<u64>().unwrap_or(0),
        None => 0,
    }
}

/// The label and the slot of an operation's line.
fn operation_of(line: &str) -> Option<(&str, usize)> {
    let (label, rest) = line
        .trim_start()
        .strip_prefix("cond ")?
        .trim_start()
        .split_once(' ')?;
    let (_, rest) = rest.trim_start().split_once(' ')?;
    let (slot, _) = rest.trim_start().split_once(' ')?;
    Some((label, slot.parse::<u32>().ok()? as usize))
}

/// How many bytes stand before the line after so many; more than all bytes, where there is none.
fn begin_of(input: &str, lines: usize) -> u64 {
    let mut begin = 0u64;
    for line in input.split('\n').take(lines) {
        begin = begin.saturating_add(line.len() as u64).saturating_add(1);
    }
    begin
}

/// Whether the line of an operation was put after at most so many bytes taken.
fn is_put_by(transcript: &str, label: &str, bytes: u64) -> bool {
    let mut after = 0u64;
    for line in transcript.split('\n') {
        if let Some(taken) = line.strip_prefix("after ") {
            after = taken.parse::<u64>().unwrap_or(u64::MAX);
        } else if label_of(line) == Some(label) {
            return after <= bytes;
        }
    }
    false
}

/// The label of a line that was put for a release.
fn label_of(line: &str) -> Option<&str> {
    let (label, _) = line.strip_prefix("| release ")?.split_once(' ')?;
    Some(label)
}
