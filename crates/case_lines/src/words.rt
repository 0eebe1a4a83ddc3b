//! Lines, their words and numbers.

use crate::fault::{Fault, Flaw};
use std::alloc::{AllocError, Global};

/// Whether a line says nothing: an empty line, or one that begins with `#`.
pub fn is_skipped(line: &str) -> bool {
    line.is_empty() || line.starts_with('#')
}

/// A line's first word, and what stands after the space after it.
pub fn word_of(line: &str) -> (&str, &str) {
    line.split_once(' ').unwrap_or((line, ""))
}

/// The words of a line, with spaces between them.
pub fn words_of<'a>(alloc: Global, line: &'a str) -> Result<Vec<&'a str>, AllocError> {
    let mut words = Vec::new(alloc);
    for word in line.split(' ') {
        words.push(word)?;
    }
    Ok(words)
}

/// The number that a text says.
pub fn number_of<R>(text: &str) -> Result<u32, Fault<R>> {
    match text.parse::<u32>() {
        Ok(number) => Ok(number),
        Err(_) => Err(Fault::Malformed(Flaw::BadNumber)),
    }
}

/// The number below 2^64 that a text says.
pub fn long_number_of<R>(text: &str) -> Result<u64, Fault<R>> {
    match text.parse::<u64>() {
        Ok(number) => Ok(number),
        Err(_) => Err(Fault::Malformed(Flaw::BadNumber)),
    }
}
