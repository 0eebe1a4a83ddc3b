//! The step that a line spells.
ghost use Rattle.std.specs.Prelude.{◌≡◌, ◌<◌, ◌∷◌, codes, All, IfOk, true, false};
ghost use Rattle.log_reader.specs.Words.{is_tail, words_behind, words_in};
ghost use Rattle.log_reader.specs.Steps.{IsSetIn, IsStepIn};

use crate::LogStep;
use crate::word::{bit_of, first_word, number_of};
use detector_graph::EdgeSet;
use schedule_reader::Name;
use std::alloc::{AllocError, Global};

/// The step that a line without its line feed spells.
pub fn step_of(alloc: Global, line: &[u8]) -> Result<Option<LogStep>, AllocError>
    ensures { IfOk result (λ found. IsStepIn (words_in line.now) found) }
{
    let (word, tail) = first_word(line);
    let Some(rest) = tail.strip_prefix(b" ") else {
        return Ok(None);
    };
    if word == b"arrive".as_slice() {
        Ok(arrival_of(rest))
    } else if word == b"commit".as_slice() {
        commit_of(alloc, rest)
    } else if word == b"released".as_slice() {
        Ok(release_of(rest))
    } else {
        Ok(None)
    }
}

/// The arrival whose slot stands after `arrive`.
fn arrival_of(rest: &[u8]) -> Option<LogStep>
    ensures { IsStepIn (codes "arrive" ∷ words_in rest.now) result }
{
    match number_of(rest) {
        Some(slot) => Some(LogStep::Arrive(slot)),
        None => None,
    }
}

/// The commit whose window and edges stand after `commit`.
fn commit_of(alloc: Global, rest: &[u8]) -> Result<Option<LogStep>, AllocError>
    ensures { IfOk result (λ found. IsStepIn (codes "commit" ∷ words_in rest.now) found) }
{
    let (word, tail) = first_word(rest);
    let Some(window) = number_of(word) else {
        return Ok(None);
    };
    match edges_of(alloc, tail)? {
        Some(edges) => Ok(Some(LogStep::Commit(window, edges))),
        None => Ok(None),
    }
}

/// The edges of a commit, each after a space.
pub fn edges_of(alloc: Global, tail: &[u8]) -> Result<Option<EdgeSet>, AllocError>
    requires { is_tail tail.now ≡ true }
    ensures { IfOk result (λ found. IsSetIn (words_behind tail.now) found) }
{
    let mut edges = EdgeSet::new(alloc);
    let mut left = tail;
    while let Some(rest) = left.strip_prefix(b" ") {
        let (word, behind) = first_word(rest);
        let Some(edge) = number_of(word) else {
            return Ok(None);
        };
        if !is_above(&edges, edge) {
            return Ok(None);
        }
        edges.push(edge)?;
        left = behind;
    }
    let _ = edges.as_slice();
    Ok(Some(edges))
}

/// Whether an edge is above all of a set.
fn is_above(edges: &EdgeSet, edge: u32) -> bool
    ensures above { result ≡ true → All (λ e. e < edge) edges.now }
    ensures not { result ≡ false → All (λ e. e < edge) edges.now → ⊥ }
{
    match edges.as_slice().last() {
        Some(last) => *last < edge,
        None => true,
    }
}

/// The release whose label and bit stand after `released`.
fn release_of(rest: &[u8]) -> Option<LogStep>
    ensures { IsStepIn (codes "released" ∷ words_in rest.now) result }
{
    let (label, tail) = first_word(rest);
    let Some(last) = tail.strip_prefix(b" ") else {
        return None;
    };
    let Some(bit) = bit_of(last) else {
        return None;
    };
    match Name::new(label) {
        Some(name) => Some(LogStep::Released(name, bit)),
        None => None,
    }
}
