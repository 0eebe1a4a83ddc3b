//! A schedule that was opened, and the rows that were read of it.
ghost use Rattle.std.specs.Prelude.{◌≡◌, IfOk, false, true};

use crate::ask::Ask;
use crate::opened::{Opened, SlotRow};
use crate::refusal::Refusal;
use crate::totals::{add_sizes, add_widths};
use case_lines::Fault;
use detector_graph::Bits;
use std::alloc::Global;

/// An opened schedule, with the row that was read last.
pub(crate) struct Sheet {
    opened: Opened,
    /// The slot of the next row.
    next: u32,
    /// The row before it.
    before: Bits,
}

impl Drop for Sheet {
    fn drop(self) {
        let Sheet {
            opened: _,
            next: _,
            before: _,
        } = self;
    }
}

impl Sheet {
    /// A sheet of which no row was read; `before` has no bits.
    pub(crate) fn new(opened: Opened, before: Bits) -> Sheet {
        Sheet {
            opened,
            next: 0,
            before,
        }
    }

    /// Answers what is asked.
    pub(crate) fn answer(
        &mut self,
        alloc: Global,
        text: &mut String,
        ask: Ask<'_>,
    ) -> Result<(), Fault<Refusal>> {
        match ask {
            Ask::Tables => self.opened.add_tables(alloc, text)?,
            Ask::Widths => add_widths(text, self.opened.map())?,
            Ask::Sizes => add_sizes(text, self.opened.map())?,
            Ask::Counts => self.opened.add_counts(alloc, text)?,
            Ask::Flips { first, last } => self.opened.add_flips(alloc, text, first, last)?,
            Ask::Row(digits) => self.add_row(alloc, text, digits)?,
            Ask::Nothing | Ask::End => {}
        }
        Ok(())
    }

    /// Writes the values that a row gives.
    fn add_row(
        &mut self,
        alloc: Global,
        text: &mut String,
        digits: &str,
    ) -> Result<(), Fault<Refusal>> {
        let row = bits_of(alloc, digits)?;
        let read = SlotRow {
            slot: self.next,
            before: &self.before,
            row: &row,
        };
        self.opened.add_values(alloc, text, read)?;
        self.next = self.next.saturating_add(1);
        self.before = row;
        Ok(())
    }
}

/// The bits of a row.
fn bits_of(alloc: Global, digits: &str) -> Result<Bits, Fault<Refusal>> {
    let digits = digits.as_bytes();
    let Ok(width) = u32::try_from(digits.len()) else {
        return Err(Fault::Refused(Refusal::WrongWidth));
    };
    let mut bits = Bits::zeros(alloc, width)?;
    for at in 0..width {
        bits.set(at, value_of(digits[at as usize])?);
    }
    Ok(bits)
}

/// The value that a digit says.
fn value_of(digit: u8) -> Result<bool, Fault<Refusal>>
    ensures { IfOk result (λ value. (digit ≡ 49 → value ≡ true) × (digit ≡ 48 → value ≡ false)) }
{
    match digit {
        b'0' => Ok(false),
        b'1' => Ok(true),
        _ => Err(Fault::Refused(Refusal::BadRow)),
    }
}
