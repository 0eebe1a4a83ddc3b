//! The reading of a line.
ghost use Rattle.std.specs.Prelude.{◌≡◌, ◌∷◌, codes, IfOk, true};
ghost use Rattle.log_reader.specs.Words.{is_tail, words_behind, words_in};
ghost use Rattle.certified_lines.specs.Certified.{CertifiedLine, IsCertifiedLine};
ghost use Rattle.certified_lines.specs.Read.{AreOfStep, IsLineIn, IsReadAs, line_in};

use crate::line::line_of;
use crate::numbers::{number_of, numbers_of};
use crate::{CertLine, LineError};
use log_reader::{edges_of, first_word, step_of};
use std::alloc::{AllocError, Global};

/// The most bytes of a line.
const LONGEST: usize = 67_108_864;

/// Reads a line of a log with certificates, without its line feed. What is read is spelled by the
/// bytes, byte for byte, and what they spell is read.
///
/// # Errors
///
/// `Fault` exactly where the bytes are no such line. It costs time in proportion to the line, and
/// memory for the numbers in it.
pub fn cert_line(alloc: Global, line: &[u8]) -> Result<CertLine, LineError>
    ensures found { IfOk result (λ found. IsCertifiedLine line.now (line_in found)) }
    ensures only { (spelled : CertifiedLine) → IsCertifiedLine line.now spelled →
        IsReadAs spelled result }
{
    if line.len() > LONGEST {
        return Err(LineError::Fault);
    }
    match line_of_words(alloc, line)? {
        Some(found) => Ok(found),
        None => Err(LineError::Fault),
    }
}

/// The line that these bytes spell.
fn line_of_words(alloc: Global, line: &[u8]) -> Result<Option<CertLine>, AllocError>
    ensures { IfOk result (λ found. IsLineIn (words_in line.now) found) }
{
    if line == b"log 1 certified".as_slice() {
        return Ok(Some(CertLine::Start));
    }
    if line == b"end log".as_slice() {
        return Ok(Some(CertLine::Finish));
    }
    let (word, tail) = first_word(line);
    if word == b"whole".as_slice() {
        whole_of(alloc, tail)
    } else if word == b"vertex".as_slice() {
        vertex_of(alloc, tail)
    } else if word == b"set".as_slice() {
        set_of(alloc, tail)
    } else {
        step_in(alloc, line)
    }
}

/// The whole set whose edges stand after `whole`.
fn whole_of(alloc: Global, tail: &[u8]) -> Result<Option<CertLine>, AllocError>
    requires { is_tail tail.now ≡ true }
    ensures { IfOk result (λ found. IsLineIn (codes "whole" ∷ words_behind tail.now) found) }
{
    match edges_of(alloc, tail)? {
        Some(edges) => Ok(Some(CertLine::Whole(edges))),
        None => Ok(None),
    }
}

/// The numbers that stand after `vertex`.
fn vertex_of(alloc: Global, tail: &[u8]) -> Result<Option<CertLine>, AllocError>
    requires { is_tail tail.now ≡ true }
    ensures { IfOk result (λ found. IsLineIn (codes "vertex" ∷ words_behind tail.now) found) }
{
    match numbers_of(alloc, tail)? {
        Some(numbers) => Ok(Some(CertLine::Vertex(numbers))),
        None => Ok(None),
    }
}

/// The set whose number and members stand after `set`.
fn set_of(alloc: Global, tail: &[u8]) -> Result<Option<CertLine>, AllocError>
    requires { is_tail tail.now ≡ true }
    ensures { IfOk result (λ found. IsLineIn (codes "set" ∷ words_behind tail.now) found) }
{
    let Some(rest) = tail.strip_prefix(b" ") else {
        return Ok(None);
    };
    let (word, behind) = first_word(rest);
    let Some(number) = number_of(word) else {
        return Ok(None);
    };
    if number <= 0 {
        return Ok(None);
    }
    let Some(members) = edges_of(alloc, behind)? else {
        return Ok(None);
    };
    if members.as_slice().len() % 2 == 0 {
        return Ok(None);
    }
    let members = Vec::from_slice(alloc, members.as_slice())?;
    Ok(Some(CertLine::OddSet(number, members)))
}

/// The line of a step, whose first word is none of those above.
fn step_in(alloc: Global, line: &[u8]) -> Result<Option<CertLine>, AllocError>
    requires { AreOfStep (words_in line.now) }
    ensures { IfOk result (λ found. IsLineIn (words_in line.now) found) }
{
    match step_of(alloc, line)? {
        Some(step) => Ok(Some(line_of(step))),
        None => Ok(None),
    }
}
