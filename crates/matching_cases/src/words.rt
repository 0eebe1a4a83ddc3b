//! Lines from their words.

use crate::refusal::Refusal;
use case_lines::{Fault, Flaw, number_of};
use dual_certificate::Cert;
use graph_model::PartEdge;
use std::alloc::Global;

/// A number of a certificate.
fn signed(word: &str) -> Result<i64, Fault<Refusal>> {
    match word.parse::<i64>() {
        Ok(number) => Ok(number),
        Err(_) => Err(Fault::Malformed(Flaw::BadNumber)),
    }
}

/// Numbers without sign.
pub(crate) fn numbers(alloc: Global, words: &[&str]) -> Result<Vec<u32>, Fault<Refusal>> {
    let mut numbers = Vec::new(alloc);
    for word in words {
        numbers.push(number_of(word)?)?;
    }
    Ok(numbers)
}

/// Edges by their ends and weights, numbered from 0.
pub(crate) fn edges_of(alloc: Global, words: &[&str]) -> Result<Vec<PartEdge>, Fault<Refusal>> {
    let mut edges = Vec::new(alloc);
    let mut edge = 0u32;
    for at in 0..words.len() / 3 {
        edges.push(PartEdge {
            edge,
            first: number_of(words[3 * at])?,
            second: end_of(words[3 * at + 1])?,
            weight: number_of(words[3 * at + 2])?,
            owned: true,
        })?;
        edge = edge.saturating_add(1);
    }
    Ok(edges)
}

/// The second end of an edge; a bar stands for a free end.
fn end_of(word: &str) -> Result<Option<u32>, Fault<Refusal>> {
    if word == "-" {
        return Ok(None);
    }
    Ok(Some(number_of(word)?))
}

/// The words up to each colon.
pub(crate) fn fields<'a, 'b>(
    alloc: Global,
    words: &'b [&'a str],
) -> Result<Vec<Vec<&'a str>>, Fault<Refusal>> {
    let mut fields = Vec::new(alloc);
    let mut field = Vec::new(alloc);
    for word in words {
        if *word == ":" {
            fields.push(field)?;
            field = Vec::new(alloc);
        } else {
            field.push(*word)?;
        }
    }
    fields.push(field)?;
    Ok(fields)
}

/// A certificate from the fields after the first.
pub(crate) fn cert_of(alloc: Global, fields: &[Vec<&str>]) -> Result<Cert, Fault<Refusal>> {
    if fields.len() < 2 {
        return Err(Fault::Refused(Refusal::FewWords));
    }
    let sets = sets_of(alloc, &fields[2..])?;
    let vertex = signed_numbers(alloc, &fields[1])?;
    Ok(Cert { vertex, sets })
}

fn signed_numbers(alloc: Global, words: &[&str]) -> Result<Vec<i64>, Fault<Refusal>> {
    let mut numbers = Vec::new(alloc);
    for word in words {
        numbers.push(signed(word)?)?;
    }
    Ok(numbers)
}

fn sets_of(alloc: Global, fields: &[Vec<&str>]) -> Result<Vec<(Vec<u32>, i64)>, Fault<Refusal>> {
    let mut sets = Vec::new(alloc);
    for field in fields {
        sets.push(set_of(alloc, field)?)?;
    }
    Ok(sets)
}

/// A set by its number and its members.
fn set_of(alloc: Global, words: &[&str]) -> Result<(Vec<u32>, i64), Fault<Refusal>> {
    let Some((first, rest)) = words.split_first() else {
        return Err(Fault::Refused(Refusal::FewWords));
    };
    let number = signed(first)?;
    Ok((numbers(alloc, rest)?, number))
}
