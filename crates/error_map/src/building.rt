//! The detector graph of a schedule.
ghost use Rattle.std.specs.Prelude.{◌≡◌, ◌<◌, ◌≤◌, ◌++◌, ℕ, Contains, IfOk, OnOk, Some, length, map, option_to_list, slice_get};
ghost use Rattle.graph_model.specs.Graph.{incident_edges};
ghost use Rattle.window_model.specs.Grounded.{IsGrounded};
ghost use Rattle.surface_model.specs.Measurements.{detectors};
ghost use Rattle.surface_model.specs.Errors.{checked, edge_of, graph_of, mechanisms, sources, watched};
ghost use Rattle.surface_model.specs.Tags.{tags_of};
ghost use Rattle.surface_model.specs.Limits.{most_detectors};
ghost use Rattle.measure_map.specs.Placed.{map_of};
ghost use Rattle.error_map.specs.Seen.{mechanism_of, mechanisms_of};
ghost use Rattle.error_map.specs.Sources.{source_of};

use crate::listing::mechanisms;
use crate::lookup::Lookup;
use crate::types::Mechanism;
use detector_graph::{Edge, Graph, Tag};
use measure_map::{Detector, MeasureMap};
use schedule_rules::Program;
use std::alloc::{AllocError, Global};

/// A detector graph, with the tag of each detector and the mechanism of each edge.
#[derive(Drop)]
pub struct Built {
    pub graph: Graph,
    pub tags: Vec<Tag>,
    pub sources: Vec<Mechanism>,
}

/// Edges, each with its mechanism.
#[derive(Drop)]
struct Edges {
    edges: Vec<Edge>,
    sources: Vec<Mechanism>,
}

/// Adds the mechanism's edge, where it flips a detector.
fn push_edge(
    edges: &mut Vec<Edge>,
    sources: &mut Vec<Mechanism>,
    alloc: Global,
    lookup: &Lookup<'_>,
    mechanism: Mechanism,
) -> Result<(), AllocError>
    requires { Contains (mechanisms lookup.now) (mechanism_of mechanism) }
    ensures edges { OnOk result (edges.new.items ≡ edges.old.items
        ++ option_to_list (edge_of lookup.now (checked lookup.now) (watched lookup.now)
        (mechanism_of mechanism))) }
    ensures sources { OnOk result (mechanisms_of sources.new.items ≡ mechanisms_of sources.old.items
        ++ source_of lookup.now (mechanism_of mechanism)) }
{
    if let Some(edge) = lookup.edge_of(alloc, mechanism)? {
        edges.push(edge)?;
        sources.push(mechanism)?;
    }
    Ok(())
}

/// The mechanism at this place of a list.
fn mechanism_at(listed: &[Mechanism], number: usize) -> Mechanism
    requires { number < length listed.now }
    ensures { slice_get listed.now number ≡ Some result }
{
    listed[number]
}

/// The edges of all mechanisms.
fn edges_of(alloc: Global, lookup: &Lookup<'_>, listed: &[Mechanism]) -> Result<Edges, AllocError>
    requires { mechanisms_of listed.now ≡ mechanisms lookup.now }
    ensures edges { IfOk result (λ l. l.edges.items ≡ (graph_of lookup.now).edges) }
    ensures sources { IfOk result (λ l. mechanisms_of l.sources.items ≡ sources lookup.now) }
{
    let mut edges = Vec::new(alloc);
    let mut sources = Vec::new(alloc);
    for number in 0..listed.len() {
        let mechanism = mechanism_at(listed, number);
        push_edge(&mut edges, &mut sources, alloc, lookup, mechanism)?;
    }
    Ok(Edges { edges, sources })
}

/// The tags of the detectors.
fn tags(alloc: Global, detectors: &[Detector]) -> Result<Vec<Tag>, AllocError>
    ensures { IfOk result (λ v. v.items ≡ map (λ d. d.tag) detectors.now) }
{
    let mut tags = Vec::with_capacity(alloc, detectors.len())?;
    for detector in detectors {
        tags.push(detector.tag())?;
    }
    Ok(tags)
}

/// The graph whose edges are the mechanisms that flip a detector, in their order. An edge ends at
/// the one or two detectors that its mechanism flips, and its mask is the observables that it
/// flips.
///
/// From each detector edges lead to one with a single end, past detectors of its slot and tile, and
/// it is an end of at most ten edges. The map is that of this program, so it has at most 1,000,000
/// detectors.
pub fn graph(alloc: Global, program: &Program, map: &MeasureMap) -> Result<Built, AllocError>
    requires made { map.now ≡ map_of program.now }
    requires few { length (detectors program.now) ≤ most_detectors }
    ensures graph { IfOk result (λ b. b.graph ≡ graph_of program.now) }
    ensures tags { IfOk result (λ b. b.tags.items ≡ tags_of program.now) }
    ensures sources { IfOk result (λ b. mechanisms_of b.sources.items ≡ sources program.now) }
    ensures grounded { IfOk result (λ b. IsGrounded b.graph b.tags.items) }
    ensures sparse { IfOk result (λ b. (v : ℕ) → v < b.graph.vertices →
        length (incident_edges b.graph v) ≤ 10) }
{
    program.is_accepted();
    let schedule = program.schedule();
    schedule.is_read();
    let all = mechanisms(alloc, program, map)?;
    let lookup = Lookup::new(alloc, schedule, program.last_slot(), map)?;
    let found = edges_of(alloc, &lookup, &all);
    drop(lookup);
    drop(all);
    let Edges { edges, sources } = found?;
    let detectors = map.detectors();
    let tags = tags(alloc, detectors)?;
    let graph = Graph::build(alloc, detectors.len() as u32, edges)?;
    Ok(Built {
        graph,
        tags,
        sources,
    })
}
