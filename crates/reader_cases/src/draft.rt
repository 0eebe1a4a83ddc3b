//! A text that is being written.
ghost use Rattle.std.specs.Prelude.{◌≡◌, ◌≢◌, IfNone, IfSome};

use std::alloc::{AllocError, Global};

/// The bytes of a text's lines.
#[derive(Drop)]
pub(crate) struct Draft {
    lines: Vec<Vec<u8>>,
}

/// Another line in the place of one, which is counted from 0.
#[derive(Clone, Copy)]
pub(crate) struct Change<'a> {
    pub(crate) place: usize,
    pub(crate) bytes: &'a [u8],
}

impl Draft {
    /// A text of no line.
    pub(crate) fn new(alloc: Global) -> Draft {
        Draft {
            lines: Vec::new(alloc),
        }
    }

    /// Takes all lines away.
    pub(crate) fn clear(&mut self) {
        self.lines.clear();
    }

    /// How many lines there are.
    pub(crate) fn count(&self) -> usize {
        self.lines.len()
    }

    /// Adds a line.
    pub(crate) fn add(&mut self, line: Vec<u8>) -> Result<(), AllocError> {
        self.lines.push(line)?;
        Ok(())
    }

    /// The text, with another line where there is a change.
    pub(crate) fn text(
        &self,
        alloc: Global,
        change: Option<Change<'_>>,
    ) -> Result<Vec<u8>, AllocError> {
        let mut text = Vec::new(alloc);
        for (place, line) in self.lines.iter().enumerate() {
            text.extend_from_slice(line_at(place, line, change))?;
        }
        Ok(text)
    }
}

/// The line at a place, where one may be another.
fn line_at<'a>(place: usize, line: &'a [u8], change: Option<Change<'a>>) -> &'a [u8]
    ensures changed { IfSome change.entry (λ c. c.place ≡ place → result.now ≡ c.bytes.now) }
    ensures other { IfSome change.entry (λ c. c.place ≢ place → result.now ≡ line.now) }
    ensures unchanged { IfNone change.entry (result.now ≡ line.now) }
{
    match change {
        Some(change) if change.place == place => change.bytes,
        _ => line,
    }
}
