//! How bits, errors and lists are written.

use case_lines::{Letters, Listed};
use detector_graph::Bits;
use error_map::{Class, Mechanism};
use measure_map::{Bit, Observable};
use patch_layout::{Basis, kind};
use std::fmt;

/// A bit of a slot: `q` a qubit that is read, `z` or `x` the outcome of a check of that basis.
#[derive(Clone, Copy)]
pub(crate) struct BitWord(pub(crate) Bit);

impl fmt::Display for BitWord {
    fn fmt<W: fmt::Write>(&self, f: &mut fmt::Formatter<W>) -> fmt::Result {
        match self.0 {
            Bit::Readout(qubit) => write!(f, "q({},{})", qubit.row, qubit.col),
            Bit::Outcome(corner) if kind(corner) == Basis::Z => {
                write!(f, "z({},{})", corner.row, corner.col)
            }
            Bit::Outcome(corner) => write!(f, "x({},{})", corner.row, corner.col),
        }
    }
}

/// An error: its kind, its slot, and the place of its qubit or check.
#[derive(Clone, Copy)]
pub(crate) struct ErrorWords(pub(crate) Mechanism);

impl fmt::Display for ErrorWords {
    fn fmt<W: fmt::Write>(&self, f: &mut fmt::Formatter<W>) -> fmt::Result {
        let error = self.0;
        let kind = match error.class {
            Class::Readout => "readout",
            Class::SpaceX => "space-x",
            Class::SpaceZ => "space-z",
            Class::Measurement => "measurement",
        };
        write!(
            f,
            "{kind} slot {} at ({},{})",
            error.slot, error.row, error.col
        )
    }
}

/// The label of an observable, with `.seam` after it for a merge's seam.
#[derive(Clone, Copy)]
pub(crate) struct Label<'a>(pub(crate) &'a Observable);

impl fmt::Display for Label<'_> {
    fn fmt<W: fmt::Write>(&self, f: &mut fmt::Formatter<W>) -> fmt::Result {
        let observable = self.0;
        write!(f, "{}", Letters(observable.name.as_bytes()))?;
        if observable.seam {
            write!(f, ".seam")?;
        }
        Ok(())
    }
}

/// Bits, each by its slot and its place among that slot's.
#[derive(Clone, Copy)]
pub(crate) struct Places<'a>(pub(crate) &'a [(u32, u32)]);

impl fmt::Display for Places<'_> {
    fn fmt<W: fmt::Write>(&self, f: &mut fmt::Formatter<W>) -> fmt::Result {
        for (slot, place) in self.0 {
            write!(f, " {slot}:{place}")?;
        }
        Ok(())
    }
}

/// The numbers of the observables that an edge flips; a bar where it flips none.
#[derive(Clone, Copy)]
pub(crate) struct Mask<'a>(pub(crate) &'a [u16]);

impl fmt::Display for Mask<'_> {
    fn fmt<W: fmt::Write>(&self, f: &mut fmt::Formatter<W>) -> fmt::Result {
        if self.0.is_empty() {
            return write!(f, " -");
        }
        write!(f, "{}", Listed(self.0))
    }
}

/// Truth values as digits; a bar where there are none.
#[derive(Clone, Copy)]
pub(crate) struct Digits<'a>(pub(crate) &'a Bits);

impl fmt::Display for Digits<'_> {
    fn fmt<W: fmt::Write>(&self, f: &mut fmt::Formatter<W>) -> fmt::Result {
        if self.0.len() == 0 {
            return write!(f, "-");
        }
        for at in 0..self.0.len() {
            let digit = if self.0.get(at) { '1' } else { '0' };
            write!(f, "{digit}")?;
        }
        Ok(())
    }
}
