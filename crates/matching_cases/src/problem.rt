//! Problems from their parts, where these are parts.
ghost use Rattle.std.specs.Prelude.{◌≡◌, ◌<◌, ◌≤◌, ℕ, [], ◌∷◌, true, All, Any, IfOk, length, map};
ghost use Rattle.std.specs.List.Sorted.{IsStrictlyIncreasing};
ghost use Rattle.graph_model.specs.Limits.{most_edges, most_places};
ghost use Rattle.graph_model.specs.Problems.{IsPartEdge, places_of};
ghost use Rattle.graph_model.specs.declared.PartEdge.{PartEdge};

use crate::refusal::Refusal;
use case_lines::Fault;
use detector_graph::{Bits, Part, Problem};
use graph_model::PartEdge;
use std::alloc::{AllocError, Global};
use std::sync::Arc;

const MOST_PLACES: u32 = 8192;

const MOST_EDGES: usize = 10_000_000;

const MOST_WEIGHT: u32 = 1000;

fn fits(places: u32, edge: &PartEdge) -> bool
    ensures { result ≡ true → IsPartEdge places edge.now }
{
    if edge.first >= places || edge.weight > MOST_WEIGHT {
        return false;
    }
    match edge.second {
        None => true,
        Some(second) => second < places && second != edge.first,
    }
}

fn all_fit(places: u32, edges: &[PartEdge]) -> bool
    ensures { result ≡ true → All (IsPartEdge places) edges.now }
{
    for edge in edges {
        if !fits(places, edge) {
            return false;
        }
    }
    true
}

fn are_rising(edges: &[PartEdge]) -> bool
    ensures { result ≡ true →
        IsStrictlyIncreasing (map (λ (edge : PartEdge). edge.edge) edges.now) }
{
    for at in 1..edges.len() {
        if edges[at - 1].edge >= edges[at].edge {
            return false;
        }
    }
    true
}

fn is_free(edges: &[PartEdge], place: u32) -> bool
    ensures { result ≡ true → Any (λ (edge : PartEdge). places_of edge ≡ place ∷ []) edges.now }
{
    for edge in edges {
        if edge.first == place && edge.second.is_none() {
            return true;
        }
    }
    false
}

fn are_free(edges: &[PartEdge], places: u32) -> bool
    ensures { result ≡ true → (place : ℕ) → place < places →
        Any (λ (edge : PartEdge). places_of edge ≡ place ∷ []) edges.now }
{
    for place in 0..places {
        if !is_free(edges, place) {
            return false;
        }
    }
    true
}

fn part_of(alloc: Global, places: u32, edges: &[PartEdge]) -> Result<Part, AllocError>
    requires few_places { places ≤ most_places }
    requires few_edges { length edges.now ≤ most_edges }
    requires fit { All (IsPartEdge places) edges.now }
    requires rising { IsStrictlyIncreasing (map (λ (edge : PartEdge). edge.edge) edges.now) }
    requires free { (place : ℕ) → place < places → Any
        (λ (edge : PartEdge). places_of edge ≡ place ∷ []) edges.now }
    ensures { IfOk result (λ part. length part.detectors ≡ places) }
{
    let detectors = vec![in alloc; 0; places as usize]?;
    let edges = Vec::from_slice(alloc, edges)?;
    let part = Part::new(alloc, 0, detectors, edges)?;
    Ok(part)
}

/// The problem with these defects. Each place has to have an edge with a free end.
pub(crate) fn problem_of(
    alloc: Global,
    places: u32,
    edges: &[PartEdge],
    defects: &[u32],
) -> Result<Problem, Fault<Refusal>> {
    if places > MOST_PLACES || edges.len() > MOST_EDGES || !all_fit(places, edges) {
        return Err(Fault::Refused(Refusal::NoPart));
    }
    if !are_rising(edges) || !are_free(edges, places) {
        return Err(Fault::Refused(Refusal::NoPart));
    }
    let part = part_of(alloc, places, edges)?;
    let mut bits = Bits::zeros(alloc, places)?;
    set_all(&mut bits, defects)?;
    Ok(Problem {
        part: Arc::new(alloc, part)?,
        defects: bits,
    })
}

fn set_all(bits: &mut Bits, places: &[u32]) -> Result<(), Fault<Refusal>>
    ensures { length bits.new ≡ length bits.old }
{
    for &place in places {
        if place >= bits.len() {
            return Err(Fault::Refused(Refusal::NoPlace));
        }
        bits.set(place, true);
    }
    Ok(())
}
