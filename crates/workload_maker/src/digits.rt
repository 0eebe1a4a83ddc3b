//! The text of an input.
ghost use Rattle.std.specs.Prelude.{◌≡◌, ◌++◌, IfOk, OnOk};
ghost use Rattle.workload_maker.specs.Digits.{digit, row_text, rows_text};

use detector_graph::Bits;
use std::alloc::{AllocError, Global};

/// The digit of a bit.
fn digit(bit: bool) -> u8
    ensures { result ≡ digit bit }
{
    if bit { b'1' } else { b'0' }
}

/// Adds a row as a line of digits.
fn write_row(text: &mut Vec<u8>, row: &Bits) -> Result<(), AllocError>
    ensures { OnOk result (text.new.items ≡ text.old.items ++ row_text row.now) }
{
    for at in 0..row.len() {
        text.push(digit(row.get(at)))?;
    }
    text.push(b'\n')?;
    Ok(())
}

/// The header's bytes and the rows as lines.
pub(crate) fn text_of(alloc: Global, header: &[u8], rows: &[Bits]) -> Result<Vec<u8>, AllocError>
    ensures { IfOk result (λ v. v.items ≡ header.now ++ rows_text rows.now) }
{
    let mut text = Vec::from_slice(alloc, header)?;
    for row in rows {
        write_row(&mut text, row)?;
    }
    Ok(text)
}
