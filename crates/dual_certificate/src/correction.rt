//! The set of edges: its boundary and its weight.
ghost use Rattle.std.specs.Prelude.{◌≡◌, ◌<◌, ◌≤◌, ◌^◌, ◌==◌, ℕ, false, true, All, Contains, IfOk, find, length, map, slice_index_or, sum_by};
ghost use Rattle.std.specs.List.{range_with_len};
ghost use Rattle.graph_model.specs.Corrections.{IsCorrection};
ghost use Rattle.graph_model.specs.Graph.{is_in};
ghost use Rattle.graph_model.specs.Parity.{◌⊕◌, parity};
ghost use Rattle.graph_model.specs.Problems.{IsPartEdge, meets, places_of, problem_weight};
ghost use Rattle.graph_model.specs.declared.PartEdge.{PartEdge};
ghost use Rattle.matching_model.specs.Certificates.{free_end, has_defect};

use detector_graph::{Bits, EdgeSet, Problem};
use graph_model::PartEdge;
use std::alloc::{AllocError, Global};

/// Whether the edges are the problem's and their boundary is the defects.
pub(crate) fn is_correction(
    alloc: Global,
    problem: &Problem,
    set: &EdgeSet,
) -> Result<bool, AllocError>
    ensures yes { IfOk result (λ b. b ≡ true →
        IsCorrection (meets problem.now.part) (range_with_len 0 (free_end problem.now))
        (map (λ (edge : PartEdge). edge.edge) problem.now.part.edges) (has_defect problem.now)
        set.now) }
    ensures no { IfOk result (λ b. b ≡ false →
        IsCorrection (meets problem.now.part) (range_with_len 0 (free_end problem.now))
        (map (λ (edge : PartEdge). edge.edge) problem.now.part.edges) (has_defect problem.now)
        set.now → ⊥) }
{
    problem.is_problem();
    if !are_edges(problem, set.as_slice()) {
        return Ok(false);
    }
    let boundary = boundary_of(alloc, problem, set.as_slice())?;
    Ok(boundary.same(&problem.defects))
}

/// Whether all numbers are those of the problem's edges.
fn are_edges(problem: &Problem, set: &[u32]) -> bool
    ensures yes { result ≡ true → All (Contains (map (λ (edge : PartEdge). edge.edge)
        problem.now.part.edges)) set.now }
    ensures no { result ≡ false → All (Contains (map (λ (edge : PartEdge). edge.edge)
        problem.now.part.edges)) set.now → ⊥ }
{
    for number in set {
        let Some(_) = edge_of(problem, *number) else {
            return false;
        };
    }
    true
}

/// A true place for each detector at which an odd number of the edges end.
fn boundary_of(alloc: Global, problem: &Problem, set: &[u32]) -> Result<Bits, AllocError>
    ensures count { IfOk result (λ bits. length bits ≡ free_end problem.now) }
    ensures value { IfOk result (λ bits. (v : ℕ) → slice_index_or bits v false
        ≡ parity (meets problem.now.part v) set.now) }
{
    problem.is_problem();
    let mut bits = Bits::zeros(alloc, problem.defects.len())?;
    for number in set {
        turn_edge(&mut bits, problem, *number);
    }
    Ok(bits)
}

/// Turns the values at the ends of the edge of this number.
fn turn_edge(bits: &mut Bits, problem: &Problem, number: u32)
    requires { length bits.old ≡ free_end problem.now }
    ensures count { length bits.new ≡ length bits.old }
    ensures value { (v : ℕ) → slice_index_or bits.new v false
        ≡ slice_index_or bits.old v false ⊕ meets problem.now.part v number }
{
    problem.is_problem();
    if let Some(edge) = edge_of(problem, number) {
        turn_ends(bits, &edge);
    }
}

/// Turns the values at the ends of an edge.
fn turn_ends(bits: &mut Bits, edge: &PartEdge)
    requires { IsPartEdge (length bits.old) edge.now }
    ensures count { length bits.new ≡ length bits.old }
    ensures value { (v : ℕ) → slice_index_or bits.new v false
        ≡ slice_index_or bits.old v false ⊕ is_in (places_of edge.now) v }
{
    bits.flip(edge.first);
    if let Some(second) = edge.second {
        bits.flip(second);
    }
}

/// The weights of the edges, added up.
pub(crate) fn weight_of(problem: &Problem, set: &EdgeSet) -> u128
    ensures value { result ≡ sum_by (problem_weight problem.now) set.now }
    ensures low { result < 2 ^ 96 }
{
    let mut total = 0;
    for number in set.as_slice() {
        total += u128::from(weight_at(problem, *number));
    }
    total
}

/// The weight of the edge of this number, or 0 where there is none.
fn weight_at(problem: &Problem, number: u32) -> u32
    ensures { result ≡ problem_weight problem.now number }
{
    match edge_of(problem, number) {
        None => 0,
        Some(edge) => edge.weight,
    }
}

/// The problem's edge of this number.
fn edge_of(problem: &Problem, number: u32) -> Option<PartEdge>
    ensures { result ≡ find (λ (edge : PartEdge). edge.edge == number) problem.now.part.edges }
{
    problem.part.numbered(number)
}
