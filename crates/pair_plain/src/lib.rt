//! Least corrections by trying every pairing: a yardstick for faster solvers.
#![tactic(auto)]

ghost use Rattle.std.specs.Prelude.{◌≡◌, ◌<◌, ◌≤◌, ◌+◌, ◌*◌, ◌%◌, ℕ, All, IfOk, List, length};
ghost use Rattle.std.specs.List.{range_with_len};
ghost use Rattle.graph_model.specs.Problems.{Solves};
ghost use Rattle.matching_model.specs.Joins.{AreJoins, IsSymmetricDifference};
ghost use Rattle.matching_model.specs.Matchings.{AreApart, matching_cost};
ghost use Rattle.dist_search.specs.Tables.{IsTable, IsTableOf, dist_of};
ghost use Rattle.pair_plain.specs.Pairings.{IsCheapest, IsLeastAt, IsPairing, without};
ghost use Rattle.graph_model.specs.Limits.{most_places};
ghost use Rattle.dist_search.specs.Hops.{most_distance};

use detector_graph::{EdgeSet, Problem};
use dist_search::{DistTable, distances, odd_edges};
use std::alloc::{AllocError, Global};

/// A least set of the problem's edges whose boundary is the defects. Its time
/// grows exponentially with the number of defects.
pub fn least_pairing(alloc: Global, problem: &Problem) -> Result<EdgeSet, AllocError>
    ensures { IfOk result (Solves problem.now) }
{
    let table = distances(alloc, problem)?;
    table.is_table();
    problem.is_problem();
    let members = numbers_below(alloc, table.count())?;
    let cheapest = cheapest_pairing(alloc, &table, &members)?;
    let walks = walks_of(alloc, &table, problem, &cheapest.pairs)?;
    symmetric_difference(alloc, &walks)
}

fn numbers_below(alloc: Global, end: u32) -> Result<Vec<u32>, AllocError>
    ensures { IfOk result (λ numbers. numbers.items ≡ range_with_len 0 end) }
{
    let mut numbers = Vec::new(alloc);
    for number in 0..end {
        numbers.push(number)?;
    }
    Ok(numbers)
}

/// Pairs of members, and the sum of their distances.
#[derive(Drop)]
struct Pairing {
    pairs: Vec<(u32, u32)>,
    cost: u64,
}

/// A cheapest pairing of these members: the first is joined with each other in turn.
#[cycle(pairings)]
fn cheapest_pairing(alloc: Global, table: &DistTable, left: &[u32]) -> Result<Pairing, AllocError>
    requires table { IsTable table.now }
    requires members { All (λ i. i < length table.now.members) left.now }
    requires apart { AreApart left.now }
    requires even { length left.now % 2 ≡ 0 }
    requires few { length left.now ≤ most_places }

    ensures cheapest { IfOk result (λ best. IsCheapest (dist_of table.now) left.now
        best.pairs.items) }
    ensures cost { IfOk result (λ best. best.cost ≡ matching_cost (dist_of table.now)
        best.pairs.items) }
    ensures low { IfOk result (λ best. best.cost ≤ most_distance * length left.now) }
{
    if left.is_empty() {
        return Ok(Pairing {
            pairs: Vec::new(alloc),
            cost: 0,
        });
    }
    let mut best = joined_pairing(alloc, table, left, 1)?;
    for at in 2..left.len() {
        let other = joined_pairing(alloc, table, left, at)?;
        if other.cost < best.cost {
            best = other;
        }
    }
    Ok(best)
}

/// The first member joined with the one at this place, and a cheapest pairing of the others.
#[cycle(pairings)]
fn joined_pairing(
    alloc: Global,
    table: &DistTable,
    left: &[u32],
    at: usize,
) -> Result<Pairing, AllocError>
    requires table { IsTable table.now }
    requires members { All (λ i. i < length table.now.members) left.now }
    requires apart { AreApart left.now }
    requires even { length left.now % 2 ≡ 0 }
    requires few { length left.now ≤ most_places }
    requires first { 0 < at }
    requires second { at < length left.now }

    ensures pairing { IfOk result (λ made. IsPairing left.now made.pairs.items) }
    ensures least { IfOk result (λ made. IsLeastAt (dist_of table.now) left.now at made.cost) }
    ensures cost { IfOk result (λ made. made.cost ≡ matching_cost (dist_of table.now)
        made.pairs.items) }
    ensures low { IfOk result (λ made. made.cost ≤ most_distance * length left.now) }
{
    let others = others_of(alloc, left, at)?;
    let mut made = cheapest_pairing(alloc, table, &others)?;
    let (first, second) = (left[0], left[at]);
    made.cost += u64::from(table.dist(first, second));
    made.pairs.push((first, second))?;
    Ok(made)
}

/// The members but the first and the one at this place.
fn others_of(alloc: Global, left: &[u32], at: usize) -> Result<Vec<u32>, AllocError>
    requires first { 0 < at }
    requires second { at < length left.now }
    ensures { IfOk result (λ others. others.items ≡ without left.now at) }
{
    let mut others = Vec::from_slice(alloc, &left[1..])?;
    others.remove(at - 1);
    Ok(others)
}

/// A least walk for each pair.
fn walks_of(
    alloc: Global,
    table: &DistTable,
    problem: &Problem,
    pairs: &[(u32, u32)],
) -> Result<Vec<EdgeSet>, AllocError>
    requires table { IsTableOf problem.now table.now }
    requires members { All (λ pair. (pair.0 < length table.now.members)
        × (pair.1 < length table.now.members)) pairs.now }
    ensures { IfOk result (λ walks. AreJoins problem.now (dist_of table.now) pairs.now
        walks.items) }
{
    let mut walks = Vec::new(alloc);
    for &(first, second) in pairs {
        walks.push(table.walk(alloc, problem, first, second)?)?;
    }
    Ok(walks)
}

/// The edges that lie in an odd number of the walks.
fn symmetric_difference(alloc: Global, walks: &[EdgeSet]) -> Result<EdgeSet, AllocError>
    ensures { IfOk result (IsSymmetricDifference walks.now) }
{
    let mut edges = Vec::new(alloc);
    for walk in walks {
        edges.extend_from_slice(walk.as_slice())?;
    }
    odd_edges(alloc, edges)
}
