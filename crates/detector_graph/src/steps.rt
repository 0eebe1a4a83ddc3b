//! Steps along a part's edges, and how far it is to the free ends.
ghost use Rattle.std.specs.Prelude.{◌≡◌, ◌<◌, ◌≤◌, [], ℕ, suc, true, false, All, Contains, IfOk, List, length, slice_index_or, sum, vec_len};
ghost use Rattle.graph_model.specs.Limits.{most_edges, most_places};
ghost use Rattle.graph_model.specs.Problems.{IsPartEdge};
ghost use Rattle.graph_model.specs.declared.PartEdge.{PartEdge as ModelEdge};
ghost use Rattle.detector_graph.specs.Rows.{group_of};
ghost use Rattle.detector_graph.specs.Steps.{AreHomes, AreLed, IsCloseEdge, far_of, no_way, step_starts};

use crate::Rows;
use graph_model::PartEdge;
use std::alloc::{AllocError, Global};

/// More than a least walk weighs.
const FAR: u32 = 10_000_000;

/// For each place, and for the free ends after them, the row of the steps that leave it, ascending.
pub(crate) fn steps_of(alloc: Global, places: u32, edges: &[PartEdge]) -> Result<Rows, AllocError>
    requires few { places ≤ most_places }
    requires few_edges { length edges.now ≤ most_edges }
    requires fit { All (IsPartEdge places) edges.now }
    ensures count { IfOk result (λ r. length r.rows ≡ suc places) }
    ensures rows { IfOk result (λ r. (v : ℕ) → slice_index_or r.rows v []
        ≡ group_of (step_starts places edges.now) v) }
{
    let starts = step_starts(alloc, places, edges)?;
    let rows = Rows::grouped(alloc, &starts, places + 1)?;
    Ok(rows)
}

/// Where each step begins.
fn step_starts(alloc: Global, places: u32, edges: &[PartEdge]) -> Result<Vec<u32>, AllocError>
    requires { length edges.now ≤ most_edges }
    ensures { IfOk result (λ starts. starts.items ≡ step_starts places edges.now) }
{
    let mut starts = Vec::with_capacity(alloc, 2 * edges.len())?;
    for edge in edges {
        starts.push(edge.first)?;
        starts.push(far_end(places, edge))?;
    }
    Ok(starts)
}

/// The second end of an edge: a place, or the free ends.
fn far_end(places: u32, edge: &PartEdge) -> u32
    ensures { result ≡ far_of places edge.now }
{
    edge.second.unwrap_or(places)
}

/// For each place, and for the free ends after them, the weight of a least walk to the free ends.
pub(crate) fn homes_of(
    alloc: Global,
    places: u32,
    edges: &[PartEdge],
) -> Result<Vec<u32>, AllocError>
    requires few { places ≤ most_places }
    requires fit { All (IsPartEdge places) edges.now }
    ensures { IfOk result (λ homes. AreHomes places edges.now homes.items) }
{
    let mut homes = vec![in alloc; FAR; places as usize + 1]?;
    homes[places as usize] = 0;
    lower_back(&mut homes, places, edges);
    while lower(&mut homes, places, edges) {}
    Ok(homes)
}

/// Lowers what stands at the ends of each edge to what the edge allows, from the last edge to the
/// first.
fn lower_back(homes: &mut Vec<u32>, places: u32, edges: &[PartEdge])
    requires fit { All (IsPartEdge places) edges.now }
    requires led { AreLed places edges.now homes.old.items }
    ensures { AreLed places edges.now homes.new.items }
{
    for at in 0..edges.len() {
        lower_ends(homes, places, &edges[edges.len() - 1 - at]);
    }
}

/// The same, from the first edge to the last. Tells whether anything was lowered.
fn lower(homes: &mut Vec<u32>, places: u32, edges: &[PartEdge]) -> bool
    requires fit { All (IsPartEdge places) edges.now }
    requires led { AreLed places edges.now homes.old.items }
    ensures led { AreLed places edges.now homes.new.items }
    ensures less { result ≡ true → sum homes.new.items < sum homes.old.items }
    ensures close { result ≡ false → All (IsCloseEdge places homes.new.items) edges.now }
{
    let mut lowered = false;
    for edge in edges {
        lowered |= lower_ends(homes, places, edge);
    }
    lowered
}

/// Lowers what stands at one end of an edge, if the edge and what stands at the other end allow it.
fn lower_ends(homes: &mut Vec<u32>, places: u32, edge: &PartEdge) -> bool
    requires fits { IsPartEdge places edge.now }
    requires low { All (λ d. d ≤ no_way) homes.old.items }
    requires count { length homes.old.items ≡ suc places }
    ensures led { (edges : List ModelEdge) → Contains edges edge.now →
        AreLed places edges homes.old.items → AreLed places edges homes.new.items }
    ensures less { result ≡ true → sum homes.new.items < sum homes.old.items }
    ensures same { result ≡ false → homes.new ≡ homes.old }
    ensures close { result ≡ false → IsCloseEdge places homes.old.items edge.now }
{
    let far = far_end(places, edge);
    let there = homes[far as usize] + edge.weight;
    let back = homes[edge.first as usize] + edge.weight;
    if there < homes[edge.first as usize] {
        homes[edge.first as usize] = there;
        return true;
    }
    if back < homes[far as usize] {
        homes[far as usize] = back;
        return true;
    }
    false
}
