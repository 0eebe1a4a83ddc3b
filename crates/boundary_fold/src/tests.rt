//! The two windows of one patch with two slots.
ghost use Rattle.std.specs.Prelude.{◌≡◌, ◌<◌, ◌∷◌, [], true, All, IfOk, IfSome, List, length};
ghost use Rattle.graph_model.specs.Graph.{IsEdge, ends_of};
ghost use Rattle.graph_model.specs.declared.Tag.{Tag as ModelTag};
ghost use Rattle.window_model.specs.Grounded.{IsGrounded, ReachesOut};
ghost use Rattle.window_plan.specs.Placed.{places_at};
ghost use Rattle.boundary_fold.specs.Folds.{IsPlanFor};

use crate::{incoming, out_flip, parts};
use detector_graph::{Bits, Edge, EdgeSet, Graph, Labels, Part, Tag};
use graph_model::PartEdge;
use std::alloc::{AllocError, Global};
use std::process::Abort;
use std::sync::Arc;
use std::test::Fail;
use window_plan::{Plan, PlanKind, plan};

/// An edge: its ends and its weight.
type Row = (u32, Option<u32>, u32);

/// The edges of slot 0, the measurements between the slots, and the readout.
const ROWS: [Row; 22] = [
    (0, None, 3),
    (0, None, 3),
    (1, None, 3),
    (0, Some(2), 3),
    (0, Some(3), 3),
    (1, Some(3), 3),
    (2, None, 3),
    (3, None, 3),
    (3, None, 3),
    (0, Some(4), 2),
    (1, Some(5), 2),
    (2, Some(6), 2),
    (3, Some(7), 2),
    (4, None, 3),
    (4, None, 3),
    (5, None, 3),
    (4, Some(6), 3),
    (4, Some(7), 3),
    (5, Some(7), 3),
    (6, None, 3),
    (7, None, 3),
    (7, None, 3),
];

/// The slots of the detectors.
const SLOTS: [u32; 8] = [0, 0, 0, 0, 1, 1, 1, 1];

fn edge_of(alloc: Global, vertices: u32, row: Row) -> Option<Edge>
    ensures { IfSome result (λ e. IsEdge vertices e) }
{
    let (first, second, weight) = row;
    let other = second.unwrap_or(first.wrapping_add(1));
    if first >= vertices || other == first || (second.is_some() && other >= vertices) {
        return None;
    }
    if weight > 1000 {
        return None;
    }
    let mask = Labels::none();
    Some(Edge {
        first,
        second,
        weight,
        mask,
    })
}

/// The greatest number of edges.
const MOST_EDGES: usize = 10_000_000;

fn graph_of(alloc: Global, vertices: u32) -> Result<Graph, Fail>
    ensures { IfOk result (λ g. g.vertices ≡ vertices) }
{
    let mut edges = Vec::new(alloc);
    for row in ROWS {
        edges.push(edge_of(alloc, vertices, row).ok_or("ends")?)?;
    }
    if edges.len() > MOST_EDGES {
        return Err("edges")?;
    }
    Ok(Graph::build(alloc, vertices, edges)?)
}

/// For each detector an edge from it to the open boundary.
const FREE: [u32; 8] = [0, 2, 6, 7, 13, 15, 19, 20];

/// Whether the edge leads from the detector to the open boundary.
fn leads_out(edge: &Edge, detector: u32) -> bool
    ensures { result ≡ true → ends_of edge.now ≡ detector ∷ [] }
{
    if edge.first != detector {
        return false;
    }
    match edge.second {
        Some(_) => false,
        None => true,
    }
}

/// Whether the table's edge leads from the detector to the open boundary.
fn leaves(graph: &Graph, detector: u32) -> bool
    ensures { (tags : List ModelTag) → result ≡ true → ReachesOut graph.now tags detector }
{
    let number = FREE.get(detector as usize).copied().unwrap_or(0);
    if number >= graph.edges() {
        return false;
    }
    leads_out(graph.edge(number), detector)
}

/// Whether each detector has such an edge.
fn all_leave(graph: &Graph) -> bool
    ensures { (tags : List ModelTag) → result ≡ true → IsGrounded graph.now tags }
{
    for detector in 0..graph.vertices() {
        if !leaves(graph, detector) {
            return false;
        }
    }
    true
}

fn tags_of(alloc: Global) -> Result<Vec<Tag>, AllocError> {
    let mut tags = Vec::new(alloc);
    for slot in SLOTS {
        tags.push(Tag {
            slot,
            tile_row: 0,
            tile_col: 0,
        })?;
    }
    Ok(tags)
}

/// The graph, with its sliding plan in blocks of one slot.
fn planned(alloc: Global, buffer: u32) -> Result<(Graph, Plan), Fail>
    ensures { IfOk result (λ r. (tags : List ModelTag) × IsPlanFor r.0 tags r.1
        × IsGrounded r.0 tags) }
{
    let tags = tags_of(alloc)?;
    if tags.len() > 1000 {
        return Err("tags")?;
    }
    let graph = graph_of(alloc, tags.len() as u32)?;
    if !all_leave(&graph) {
        return Err("a detector without a free end")?;
    }
    match plan(alloc, &graph, &tags, PlanKind::Sliding, 1, buffer) {
        Ok(plan) => Ok((graph, plan)),
        Err(_) => Err("refused")?,
    }
}

/// An edge of a part, and whether the window owns it.
fn expected(
    rows: &[Row],
    from: u32,
    owned: u32,
    alloc: Global,
) -> Result<Vec<PartEdge>, AllocError> {
    let mut edges = Vec::new(alloc);
    let mut number = from;
    for (first, second, weight) in rows {
        edges.push(PartEdge {
            edge: number,
            first: *first,
            second: *second,
            weight: *weight,
            owned: number < owned,
        })?;
        number = number.wrapping_add(1);
    }
    Ok(edges)
}

/// The readout's edges by the places of window 1.
const READOUT: [Row; 9] = [
    (0, None, 3),
    (0, None, 3),
    (1, None, 3),
    (0, Some(2), 3),
    (0, Some(3), 3),
    (1, Some(3), 3),
    (2, None, 3),
    (3, None, 3),
    (3, None, 3),
];

/// The edges of slot 0 and the measurements by the places of window 0.
const FIRST: [Row; 13] = [
    (0, None, 3),
    (0, None, 3),
    (1, None, 3),
    (0, Some(2), 3),
    (0, Some(3), 3),
    (1, Some(3), 3),
    (2, None, 3),
    (3, None, 3),
    (3, None, 3),
    (0, None, 2),
    (1, None, 2),
    (2, None, 2),
    (3, None, 2),
];

/// The parts of the plan with this buffer.
fn parts_of(alloc: Global, buffer: u32) -> Result<Vec<Arc<Part>>, Fail> {
    let made = planned(alloc, buffer)?;
    Ok(parts(alloc, &made.0, &made.1)?)
}

/// Compares a part with what was found by hand.
fn compare(
    rt: &impl Abort,
    part: &Part,
    window: u32,
    detectors: &[u32],
    edges: &[PartEdge],
) -> Result<(), Fail> {
    assert_eq!(rt; part.window, window);
    assert_eq!(rt; part.detectors.as_slice(), detectors);
    assert_eq!(rt; part.edges() as usize, edges.len());
    for at in 0..part.edges() {
        assert_eq!(rt; edges.get(at as usize).copied(), Some(part.edge(at)));
    }
    Ok(())
}

#[test]
fn parts_by_hand(rt: HostRuntime) -> Result<(), Fail> {
    let alloc = rt.alloc();
    let parts = parts_of(alloc, 0)?;
    assert_eq!(rt; parts.len(), 2);
    let first = expected(&FIRST, 0, 22, alloc)?;
    let second = expected(&READOUT, 13, 22, alloc)?;
    compare(
        &rt,
        parts.get(0).ok_or("no part")?,
        0,
        &[0, 1, 2, 3],
        &first,
    )?;
    compare(
        &rt,
        parts.get(1).ok_or("no part")?,
        1,
        &[4, 5, 6, 7],
        &second,
    )
}

#[test]
fn a_buffer_is_not_owned(rt: HostRuntime) -> Result<(), Fail> {
    let alloc = rt.alloc();
    let parts = parts_of(alloc, 1)?;
    let first = expected(&ROWS, 0, 13, alloc)?;
    compare(
        &rt,
        parts.get(0).ok_or("no part")?,
        0,
        &[0, 1, 2, 3, 4, 5, 6, 7],
        &first,
    )
}

/// What a set of edges flips at the places that two windows share.
fn flips(alloc: Global, graph: &Graph, places: &[u32], kept: &EdgeSet) -> Result<Bits, Fail>
    requires { All (λ e. e < length graph.now.edges) kept.now }
    ensures { IfOk result (λ bits. length bits ≡ length places.now) }
{
    if places.len() > 1000 {
        return Err("places")?;
    }
    let mut bits = Bits::zeros(alloc, places.len() as u32)?;
    for at in 0..bits.len() {
        let place = places[at as usize];
        if place >= graph.vertices() {
            return Err("place")?;
        }
        bits.set(at, out_flip(graph, place, kept));
    }
    Ok(bits)
}

/// The defects of window 1, where window 0 keeps these edges.
fn left_over(
    alloc: Global,
    graph: &Graph,
    plan: &Plan,
    values: &Bits,
    kept: &EdgeSet,
) -> Result<Bits, Fail>
    requires plan { (tags : List ModelTag) × IsPlanFor graph.now tags plan.now }
    requires values { length values.now ≡ graph.now.vertices }
    requires kept { All (λ e. e < length graph.now.edges) kept.now }
{
    if plan.windows() < 2 {
        return Err("windows")?;
    }
    let detectors = plan.detectors(1).len();
    if detectors > 1000 {
        return Err("detectors")?;
    }
    let mut into = Bits::zeros(alloc, detectors as u32)?;
    let deps = plan.deps(1);
    if deps.len() != 1 {
        return Err("dependencies")?;
    }
    let link = flips(alloc, graph, plan.places(deps[0], 1), kept)?;
    incoming(plan, 1, values, &[link], &mut into);
    Ok(into)
}

/// A set of this one edge.
fn one_edge(alloc: Global, graph: &Graph, edge: u32) -> Result<EdgeSet, Fail>
    ensures { IfOk result (λ set. All (λ e. e < length graph.now.edges) set) }
{
    if edge >= graph.edges() {
        return Err("edge")?;
    }
    let mut set = EdgeSet::new(alloc);
    set.push(edge)?;
    Ok(set)
}

/// Values of which those of detectors 0 and 4 are true.
fn two_defects(alloc: Global, count: u32) -> Result<Bits, Fail>
    ensures { IfOk result (λ values. length values ≡ count) }
{
    if count < 5 {
        return Err("detectors")?;
    }
    let mut values = Bits::zeros(alloc, count)?;
    values.set(0, true);
    values.set(4, true);
    Ok(values)
}

/// The defects of window 1, where window 0 keeps this edge.
fn left_by(alloc: Global, edge: u32) -> Result<Bits, Fail> {
    let made = planned(alloc, 0)?;
    let kept = one_edge(alloc, &made.0, edge)?;
    let values = two_defects(alloc, made.0.vertices())?;
    left_over(alloc, &made.0, &made.1, &values, &kept)
}

/// Whether the edge ends at the detector.
fn flips_at(alloc: Global, edge: u32, detector: u32) -> Result<bool, Fail> {
    let graph = graph_of(alloc, 8)?;
    let kept = one_edge(alloc, &graph, edge)?;
    if detector >= graph.vertices() {
        return Err("detector")?;
    }
    Ok(out_flip(&graph, detector, &kept))
}

/// Compares values with those at the places from 0 on.
fn same_values(rt: &impl Abort, bits: &Bits, values: &[bool]) -> Result<(), Fail> {
    assert_eq!(rt; bits.len() as usize, values.len());
    for at in 0..bits.len() {
        if let Some(value) = values.get(at as usize) {
            assert_eq!(rt; bits.get(at), *value);
        }
    }
    Ok(())
}

#[test]
fn an_edge_flips_its_ends(rt: HostRuntime) -> Result<(), Fail> {
    assert!(rt; flips_at(rt.alloc(), 9, 0)?);
    assert!(rt; flips_at(rt.alloc(), 9, 4)?);
    assert!(rt; !flips_at(rt.alloc(), 9, 5)?);
    Ok(())
}

#[test]
fn a_commit_explains_a_later_defect(rt: HostRuntime) -> Result<(), Fail> {
    same_values(&rt, &left_by(rt.alloc(), 9)?, &[false, false, false, false])?;
    same_values(&rt, &left_by(rt.alloc(), 10)?, &[true, true, false, false])?;
    same_values(&rt, &left_by(rt.alloc(), 0)?, &[true, false, false, false])
}
