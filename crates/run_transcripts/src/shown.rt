//! What a case gave, as text.

use port_io::TapeByte;
use std::alloc::{AllocError, Global};

/// Which lines of what was put a transcript shows.
#[derive(Clone, Copy)]
pub struct Shown {
    /// How many of the last lines, where not all.
    pub tail: Option<u64>,
    /// Whether a line `after N` says after how many bytes taken the next lines were put.
    pub taken: bool,
}

/// A line with the status and the number of bytes taken, and the lines that were put, each after a
/// bar. A last one without its line feed is followed by `\c`. Where only some of the last lines are
/// shown, the number of those before stands in their place.
pub fn transcript(
    alloc: Global,
    status: u8,
    tape: &[TapeByte],
    shown: Shown,
) -> Result<String, AllocError> {
    let taken = tape.iter().filter(|byte| is_taken(**byte)).count();
    let mut text = format!(in alloc; "status {status} took {taken}\n")?;
    let hidden = hidden_lines(tape, shown.tail);
    if hidden > 0 {
        text.push_str(&format!(in alloc; "({hidden} lines)\n")?)?;
    }
    add_lines(alloc, &mut text, tape, hidden, shown.taken)?;
    if matches!(last_sent(tape), Some(byte) if byte != b'\n') {
        text.push_str("\\c\n")?;
    }
    Ok(text)
}

fn is_taken(byte: TapeByte) -> bool {
    match byte {
        TapeByte::Taken(_) => true,
        TapeByte::Sent(_) => false,
    }
}

/// The last byte that was put.
fn last_sent(tape: &[TapeByte]) -> Option<u8> {
    let mut last = None;
    for byte in tape {
        if let TapeByte::Sent(byte) = *byte {
            last = Some(byte);
        }
    }
    last
}

/// How many lines stand before those that are shown.
fn hidden_lines(tape: &[TapeByte], tail: Option<u64>) -> usize {
    let feeds = tape.iter().filter(|byte| is_feed(**byte)).count();
    let open = matches!(last_sent(tape), Some(byte) if byte != b'\n');
    match tail {
        Some(tail) => feeds
            .saturating_add(open as usize)
            .saturating_sub(tail as usize),
        None => 0,
    }
}

fn is_feed(byte: TapeByte) -> bool {
    matches!(byte, TapeByte::Sent(b'\n'))
}

/// Where a transcript stands on the tape.
#[derive(Clone, Copy)]
struct At {
    taken: usize,
    /// The lines that were put and not yet passed over.
    hidden: usize,
    /// Whether the next byte that was put begins a line.
    begins: bool,
    /// The bytes taken before the last line that is shown.
    noted: Option<usize>,
}

/// Adds the lines that were put, but for the first so many.
fn add_lines(
    alloc: Global,
    text: &mut String,
    tape: &[TapeByte],
    hidden: usize,
    shows_taken: bool,
) -> Result<(), AllocError> {
    let mut at = At {
        taken: 0,
        hidden,
        begins: true,
        noted: None,
    };
    for byte in tape {
        match *byte {
            TapeByte::Taken(_) => at.taken = at.taken.saturating_add(1),
            TapeByte::Sent(byte) => {
                if shows_taken {
                    note_taken(alloc, text, &mut at)?;
                }
                add_byte(text, &mut at, byte)?;
            }
        }
    }
    Ok(())
}

/// Adds a line that says how many bytes were taken, where a line that is shown begins and more
/// were.
fn note_taken(alloc: Global, text: &mut String, at: &mut At) -> Result<(), AllocError> {
    if at.begins && at.hidden == 0 && at.noted != Some(at.taken) {
        text.push_str(&format!(in alloc; "after {}\n", at.taken)?)?;
        at.noted = Some(at.taken);
    }
    Ok(())
}

/// Adds a byte that was put, where its line is shown.
fn add_byte(text: &mut String, at: &mut At, byte: u8) -> Result<(), AllocError> {
    if at.hidden == 0 {
        if at.begins {
            text.push_str("| ")?;
        }
        text.push(char::from(byte))?;
    }
    at.begins = byte == b'\n';
    if at.begins {
        at.hidden = at.hidden.saturating_sub(1);
    }
    Ok(())
}
