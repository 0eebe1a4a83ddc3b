//! How lists and names are written.

use std::fmt;

/// Values, each with a space before it.
#[derive(Clone, Copy)]
pub struct Listed<'a, T>(pub &'a [T]);

impl<T: fmt::Display> fmt::Display for Listed<'_, T> {
    fn fmt<W: fmt::Write>(&self, f: &mut fmt::Formatter<W>) -> fmt::Result {
        for value in self.0 {
            write!(f, " {value}")?;
        }
        Ok(())
    }
}

/// The letters of a name, each by its byte.
#[derive(Clone, Copy)]
pub struct Letters<'a>(pub &'a [u8]);

impl fmt::Display for Letters<'_> {
    fn fmt<W: fmt::Write>(&self, f: &mut fmt::Formatter<W>) -> fmt::Result {
        for byte in self.0 {
            write!(f, "{}", char::from(*byte))?;
        }
        Ok(())
    }
}
