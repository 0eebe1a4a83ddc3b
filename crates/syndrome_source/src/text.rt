//! The header of an input: the text of a schedule, up to its line `rounds`.
ghost use Rattle.std.specs.Prelude.{◌≡◌, ◌≤◌, ◌++◌, ◌==◌, ◌&&◌, false, List, ℕ, IfErr, IfOk, IsErrOf};
ghost use Rattle.std.specs.List.{list_all};
ghost use Rattle.port_io.specs.Port.{Rose};
ghost use Rattle.port_io.specs.Traffic.{KeepsCounts, Moves, taken};
ghost use Rattle.surface_model.specs.Header.{Taken, header_of, is_rounds_alone};
ghost use Rattle.surface_model.specs.Text.{fields_of};
ghost use Rattle.syndrome_source.specs.Headers.{IsNoHeader, begins_with_space};

use crate::HeaderError;
use port_io::{Port, Take};
use std::alloc::Global;

/// The most bytes that are taken: one more than a good header may have.
const MOST_BYTES: usize = 1_048_577;

/// Takes the header: the bytes up to the end of the first line whose only
/// field is `rounds`, or the first 1,048,577 bytes where that line doesn't end
/// earlier. Whether it is a good one is judged by others.
///
/// # Errors
///
/// `Ended` where the input ends earlier, with the number of that line from 1;
/// `ReadFault` where the port fails; `Memory` after a byte that had no room.
pub fn header<P: Port>(alloc: Global, port: &mut P) -> Result<Vec<u8>, HeaderError>
    ensures text { IfOk result (λ text. Moves P.Port port.old port.new (taken text.items)
        × ((rest : List ℕ) → header_of (text.items ++ rest) ≡ Taken text.items rest)) }
    ensures refused { IfErr result (λ error. (bytes : List ℕ)
        × Moves P.Port port.old port.new (taken bytes) × IsNoHeader bytes (P.left port.new) error) }
    ensures fault { IsErrOf result HeaderError.ReadFault →
        Rose (P.read_faults port.old) (P.read_faults port.new) }
    ensures counts { KeepsCounts P.Port port.old port.new }
{
    let mut text = Vec::new(alloc);
    let mut line = 1;
    let mut start = 0;
    for _ in 0..MOST_BYTES {
        let byte = match port.take() {
            Take::Byte(byte) => byte,
            Take::End => return Err(HeaderError::Ended { line }),
            Take::Failed => return Err(HeaderError::ReadFault),
        };
        let ends = ends_header(&text[start..], byte);
        text.push(byte)?;
        if ends {
            return Ok(text);
        }
        if byte == b'\n' {
            line += 1;
            start = text.len();
        }
    }
    Ok(text)
}

/// Whether the header ends with this byte after the line.
fn ends_header(line: &[u8], byte: u8) -> bool
    ensures { result ≡ (byte == 10 && is_rounds_alone line.now) }
{
    byte == b'\n' && is_rounds_alone(line)
}

/// Whether `rounds` is the line's only field: spaces may stand round it.
fn is_rounds_alone(line: &[u8]) -> bool
    ensures { result ≡ is_rounds_alone line.now }
{
    match without_spaces(line).strip_prefix(b"rounds") {
        Some(rest) => is_blank(rest),
        None => false,
    }
}

/// The line from its first byte on that is no space.
fn without_spaces(line: &[u8]) -> &[u8]
    ensures fields { fields_of result.now ≡ fields_of line.now }
    ensures first { begins_with_space result.now ≡ false }
{
    for (at, byte) in line.iter().enumerate() {
        if *byte != b' ' {
            return &line[at..];
        }
    }
    &line[line.len()..]
}

/// Whether all of the bytes are spaces.
fn is_blank(bytes: &[u8]) -> bool
    ensures { result ≡ list_all (λ b. b == 32) bytes.now }
{
    bytes.iter().all(|byte| *byte == b' ')
}
