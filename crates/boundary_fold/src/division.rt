//! A graph divided into its windows' parts.
ghost use Rattle.std.specs.Prelude.{◌≡◌, ◌<◌, ◌≤◌, [], ◌∷◌, All, IfOk, List, Option, length, map, slice_get, slice_index};
ghost use Rattle.std.specs.Arc.{arc_value};
ghost use Rattle.std.specs.List.{cons_option, range_with_len};
ghost use Rattle.std.specs.List.Sorted.{IsStrictlyIncreasing};
ghost use Rattle.graph_model.specs.Graph.{IsEdge, is_in};
ghost use Rattle.graph_model.specs.declared.Tag.{Tag as ModelTag};
ghost use Rattle.window_model.specs.Grounded.{IsGrounded};
ghost use Rattle.window_model.specs.Parts.{part_edge, part_of};
ghost use Rattle.window_model.specs.Windows.{window_count};
ghost use Rattle.boundary_fold.specs.Folds.{IsPlanFor, edges_with, window_with};
ghost use Rattle.boundary_fold.specs.Located.{AreBelow, IsFirstFrom};

use crate::located::{LocatedDetectors, note_places};
use detector_graph::{Edge, Graph, Part};
use graph_model::PartEdge;
use std::alloc::{AllocError, Global};
use std::sync::Arc;
use window_plan::Plan;

/// The places of an edge's ends, without those that the list has not.
fn places(first: Option<u32>, second: Option<u32>) -> (u32, Option<u32>)
    ensures first { result.0 ≡ slice_index (cons_option first (cons_option second [])) 0 }
    ensures second { result.1 ≡ slice_get (cons_option first (cons_option second [])) 1 }
{
    match (first, second) {
        (Some(one), other) => (one, other),
        (None, Some(one)) => (one, None),
        (None, None) => (0, None),
    }
}

/// An edge as the window with these detectors sees it.
fn part_edge(located: &LocatedDetectors, number: u32, edge: &Edge, owned: bool) -> PartEdge
    requires { IsEdge located.now.vertices edge.now }
    ensures { result ≡ record (part_edge (window_with located.now.detectors []) number edge.now)
        { owned = owned } }
{
    let first = located.place_of(edge.first);
    let second = located.place_of_second(edge.second);
    let (first, second) = places(first, second);
    PartEdge {
        edge: number,
        first,
        second,
        weight: edge.weight,
        owned,
    }
}

/// The first place from one on with a number that isn't below this one.
fn first_from(numbers: &[u32], from: usize, number: u32) -> usize
    requires within { from ≤ length numbers.now }
    requires below { AreBelow numbers.now from number }
    ensures { IsFirstFrom numbers.now number result }
{
    let mut place = from;
    while place < numbers.len() && numbers[place] < number {
        place += 1;
    }
    place
}

/// Whether a number is in the list, where this is the first place with one that isn't below it.
fn has_at(numbers: &[u32], place: usize, number: u32) -> bool
    requires rising { IsStrictlyIncreasing numbers.now }
    requires place { IsFirstFrom numbers.now number place }
    ensures { result ≡ is_in numbers.now number }
{
    place < numbers.len() && numbers[place] == number
}

/// The edges of these numbers, as the window with these detectors and owned edges sees them.
fn part_edges(
    alloc: Global,
    graph: &Graph,
    located: &LocatedDetectors,
    edges: &[u32],
    owned: &[u32],
) -> Result<Vec<PartEdge>, AllocError>
    requires vertices { located.now.vertices ≡ graph.now.vertices }
    requires edges { All (λ e. e < length graph.now.edges) edges.now }
    requires rising { IsStrictlyIncreasing edges.now }
    requires owned { IsStrictlyIncreasing owned.now }
    ensures { IfOk result (λ v. v.items
        ≡ edges_with graph.now located.now.detectors owned.now edges.now) }
{
    let mut found = Vec::with_capacity(alloc, edges.len())?;
    let mut next = 0;
    for number in edges {
        next = first_from(owned, next, *number);
        let is_owned = has_at(owned, next, *number);
        found.push(part_edge(located, *number, graph.edge(*number), is_owned))?;
    }
    Ok(found)
}

/// What one window decodes. The table, which has a number for each detector of the graph, is
/// written to.
fn part(
    alloc: Global,
    graph: &Graph,
    plan: &Plan,
    window: u32,
    table: &mut Vec<u32>,
) -> Result<Arc<Part>, AllocError>
    requires plan { (tags : List ModelTag) × IsPlanFor graph.now tags plan.now
        × IsGrounded graph.now tags }
    requires window { window < window_count plan.now.plan }
    requires table { length table.old.items ≡ graph.now.vertices }
    ensures table { length table.new.items ≡ graph.now.vertices }
    ensures part { IfOk result (λ part. arc_value part ≡ part_of graph.now plan.now.plan window) }
{
    graph.is_graph();
    plan.is_plan();
    let detectors = plan.detectors(window);
    note_places(detectors, table);
    let located = LocatedDetectors::new(detectors, table);
    let edges = part_edges(
        alloc,
        graph,
        &located,
        plan.edges(window),
        plan.owned(window),
    )?;
    let detectors = Vec::from_slice(alloc, detectors)?;
    let part = Part::new(alloc, window, detectors, edges)?;
    Ok(Arc::new(alloc, part)?)
}

/// A table with a number for each detector of the graph.
fn blank_table(alloc: Global, graph: &Graph) -> Result<Vec<u32>, AllocError>
    ensures { IfOk result (λ t. length t.items ≡ graph.now.vertices) }
{
    vec![in alloc; 0; graph.vertices() as usize]
}

/// What each window decodes, by rank. The plan is one that was made of this graph, and each
/// detector has a walk to a free end within its slot and tile.
///
/// It costs time in proportion to what the windows hold, and to the detectors of the graph.
pub fn parts(alloc: Global, graph: &Graph, plan: &Plan) -> Result<Vec<Arc<Part>>, AllocError>
    requires { (tags : List ModelTag) × IsPlanFor graph.now tags plan.now
        × IsGrounded graph.now tags }
    ensures { IfOk result (λ parts. map arc_value parts.items
        ≡ map (part_of graph.now plan.now.plan) (range_with_len 0 (window_count plan.now.plan))) }
{
    let mut parts = Vec::with_capacity(alloc, plan.windows() as usize)?;
    let mut table = blank_table(alloc, graph)?;
    for window in 0..plan.windows() {
        parts.push(part(alloc, graph, plan, window, &mut table)?)?;
    }
    Ok(parts)
}
