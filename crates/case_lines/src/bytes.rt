//! The bytes that a line of an input stands for.
ghost use Rattle.std.specs.Prelude.{◌<◌, length, IfOk, IfSome};

use crate::fault::{Fault, Flaw};
use crate::words::long_number_of;
use std::alloc::{AllocError, Global};

/// What one byte or escape of a line stands for.
#[derive(Clone, Copy)]
enum Piece {
    Byte(u8),
    /// The number of the repetition, from 1.
    Number,
}

/// The bytes of a line.
///
/// `\*N TEXT` is the text N times, and any other line is a text. A text has its
/// line feed after it, unless it ends in `\c`. In it `\n`, `\r`, `\t` and `\0` are
/// the bytes 10, 13, 9 and 0, `\xHH` is the byte of two hexadecimal digits, `\\` is a
/// backslash, and `\#` the decimal number of the repetition, from 1.
pub fn bytes_of<R>(alloc: Global, line: &str) -> Result<Vec<u8>, Fault<R>> {
    let (count, text) = repeated(line)?;
    let pieces = pieces_of(alloc, text.as_bytes())?;
    let bytes = repeat(alloc, &pieces, count);
    drop(pieces);
    Ok(bytes?)
}

/// How often a line's text stands there, and the text.
fn repeated<R>(line: &str) -> Result<(u64, &str), Fault<R>> {
    let Some(rest) = line.strip_prefix("\\*") else {
        return Ok((1, line));
    };
    match rest.split_once(' ') {
        Some((count, text)) => Ok((long_number_of(count)?, text)),
        None => Err(Fault::Malformed(Flaw::BadNumber)),
    }
}

/// A text's pieces, with its line feed.
fn pieces_of<R>(alloc: Global, text: &[u8]) -> Result<Vec<Piece>, Fault<R>> {
    let mut pieces = Vec::new(alloc);
    let mut rest = text.strip_suffix(b"\\c").unwrap_or(text);
    while !rest.is_empty() {
        let Some((piece, more)) = first_piece(rest) else {
            return Err(Fault::Malformed(Flaw::BadEscape));
        };
        pieces.push(piece)?;
        rest = more;
    }
    if !text.ends_with(b"\\c") {
        pieces.push(Piece::Byte(b'\n'))?;
    }
    Ok(pieces)
}

/// The first piece of a text, and what stands after it.
fn first_piece(text: &[u8]) -> Option<(Piece, &[u8])>
    ensures { IfSome result (λ p. length p.1.now < length text.now) }
{
    match text {
        [b'\\', b'x', high, low, rest @ ..] => Some((Piece::Byte(hex_of(*high, *low)?), rest)),
        [b'\\', code, rest @ ..] => Some((escaped(*code)?, rest)),
        [byte, rest @ ..] if *byte != b'\\' => Some((Piece::Byte(*byte), rest)),
        _ => None,
    }
}

/// What a backslash and this byte stand for.
fn escaped(code: u8) -> Option<Piece> {
    match code {
        b'n' => Some(Piece::Byte(b'\n')),
        b'r' => Some(Piece::Byte(b'\r')),
        b't' => Some(Piece::Byte(b'\t')),
        b'0' => Some(Piece::Byte(0)),
        b'\\' => Some(Piece::Byte(b'\\')),
        b'#' => Some(Piece::Number),
        _ => None,
    }
}

/// The byte of two hexadecimal digits.
fn hex_of(high: u8, low: u8) -> Option<u8> {
    Some(digit_of(high)? * 16 + digit_of(low)?)
}

/// The value of a hexadecimal digit.
fn digit_of(digit: u8) -> Option<u8>
    ensures { IfSome result (λ value. value < 16) }
{
    match digit {
        b'0'..=b'9' => Some(digit - b'0'),
        b'a'..=b'f' => Some(digit - b'a' + 10),
        b'A'..=b'F' => Some(digit - b'A' + 10),
        _ => None,
    }
}

/// The bytes of so many repetitions.
fn repeat(alloc: Global, pieces: &[Piece], count: u64) -> Result<Vec<u8>, AllocError> {
    let mut bytes = Vec::new(alloc);
    for before in 0..count {
        add_pieces(alloc, &mut bytes, pieces, before)?;
    }
    Ok(bytes)
}

/// Adds the pieces once, in the repetition after so many.
fn add_pieces(
    alloc: Global,
    bytes: &mut Vec<u8>,
    pieces: &[Piece],
    before: u64,
) -> Result<(), AllocError> {
    for piece in pieces {
        match piece {
            Piece::Byte(byte) => bytes.push(*byte)?,
            Piece::Number => {
                let number = format!(in alloc; "{}", before.saturating_add(1))?;
                bytes.extend_from_slice(number.as_bytes())?;
            }
        }
    }
    Ok(())
}
