//! What a line of a sheet asks.

use crate::refusal::Refusal;
use case_lines::{Fault, Flaw, is_skipped, long_number_of, word_of};

/// What is asked of an opened schedule.
#[derive(Clone, Copy)]
pub(crate) enum Ask<'a> {
    /// Nothing: an empty line, or a note.
    Nothing,
    Tables,
    Widths,
    Sizes,
    Counts,
    /// The bits that the errors of these numbers change.
    Flips { first: u64, last: u64 },
    /// The values that a row gives, by its digits.
    Row(&'a str),
    /// The end of the sheet.
    End,
}

/// What a line of an open sheet asks.
pub(crate) fn ask_of(line: &str) -> Result<Ask<'_>, Fault<Refusal>> {
    if is_skipped(line) {
        return Ok(Ask::Nothing);
    }
    match word_of(line) {
        ("tables", "") => Ok(Ask::Tables),
        ("widths", "") => Ok(Ask::Widths),
        ("sizes", "") => Ok(Ask::Sizes),
        ("counts", "") => Ok(Ask::Counts),
        ("flips", range) => flips_of(range),
        ("row", digits) => Ok(Ask::Row(digits)),
        _ if line == "end" => Ok(Ask::End),
        _ => Err(Fault::Malformed(Flaw::UnknownLine)),
    }
}

fn flips_of(range: &str) -> Result<Ask<'_>, Fault<Refusal>> {
    let (first, last) = word_of(range);
    Ok(Ask::Flips {
        first: long_number_of(first)?,
        last: long_number_of(last)?,
    })
}
