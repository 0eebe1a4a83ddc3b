//! Three detectors in a row, one a slot, and the operations at their edges.
ghost use Rattle.std.specs.Prelude.{◌≡◌, ◌≢◌, ◌<◌, ◌≤◌, ◌+◌, [], All, IfOk, IfSome, OnOk, length};
ghost use Rattle.std.specs.List.Sorted.{IsStrictlyIncreasing};
ghost use Rattle.graph_model.specs.Graph.{IsEdge};
ghost use Rattle.release_gate.specs.Operations.{TimedOperation};

use super::*;
use detector_graph::{Edge, Graph, Labels, Tag};
use std::alloc::{AllocError, Global};
use std::test::*;
use window_plan::{Plan, PlanKind, plan};

fn edge(first: u32, second: Option<u32>, mask: Labels) -> Edge
    requires first { first < 3 }
    requires second { IfSome second (λ w. (w < 3) × (w ≢ first)) }
    requires ascending { IsStrictlyIncreasing mask }
    requires labels { All (λ l. l < 512) mask }
    ensures { IsEdge 3 result }
{
    Edge {
        first,
        second,
        weight: 1,
        mask,
    }
}

fn one(alloc: Global, label: u16) -> Result<Labels, AllocError>
    requires { label < 512 }
    ensures ascending { IfOk result IsStrictlyIncreasing }
    ensures labels { IfOk result (All (λ l. l < 512)) }
{
    Labels::new(alloc, Vec::from_slice(alloc, &[label])?)
}

fn both(alloc: Global) -> Result<Labels, AllocError>
    ensures ascending { IfOk result IsStrictlyIncreasing }
    ensures labels { IfOk result (All (λ l. l < 512)) }
{
    Labels::new(alloc, Vec::from_slice(alloc, &[0, 1])?)
}

/// Adds an edge.
fn add(
    edges: &mut Vec<Edge>,
    first: u32,
    second: Option<u32>,
    mask: Labels,
) -> Result<(), AllocError>
    requires first { first < 3 }
    requires second { IfSome second (λ w. (w < 3) × (w ≢ first)) }
    requires ascending { IsStrictlyIncreasing mask }
    requires labels { All (λ l. l < 512) mask }
    requires fit { All (IsEdge 3) edges.old.items }
    ensures fit { OnOk result (All (IsEdge 3) edges.new.items) }
    ensures count { OnOk result (length edges.new.items ≡ length edges.old.items + 1) }
{
    edges.push(edge(first, second, mask))?;
    Ok(())
}

/// An edge of observable 0 at the first detector, one of observable 1 between the last two, and one
/// of both at the last.
fn row(alloc: Global) -> Result<Graph, AllocError>
    ensures { IfOk result (λ g. g.vertices ≡ 3) }
{
    let mut edges = Vec::new(alloc);
    add(&mut edges, 0, None, one(alloc, 0)?)?;
    add(&mut edges, 0, Some(1), Labels::none())?;
    add(&mut edges, 2, Some(1), one(alloc, 1)?)?;
    add(&mut edges, 2, None, both(alloc)?)?;
    Graph::build(alloc, 3, edges)
}

fn tag(slot: u32) -> Tag {
    Tag {
        slot,
        tile_row: 0,
        tile_col: 0,
    }
}

/// An operation of observable 0, whose raw value is there in slot 0, of 1, in slot 3, or of both.
fn op(alloc: Global, slot: u32, labels: &[(u16, u32)]) -> Result<OpSpec, AllocError>
    requires { 0 < length labels.now }
    ensures { IfOk result (λ op. op.labels ≢ []) }
{
    Ok(OpSpec {
        slot,
        labels: Vec::from_slice(alloc, labels)?,
    })
}

/// What the operations wait for, in one text.
fn told(alloc: Global, ops: &[OpSpec]) -> Result<String, Fail>
    requires named { All (λ (op : TimedOperation). op.labels ≢ []) ops.now }
    requires few { length ops.now ≤ 3 }
{
    let graph = row(alloc)?;
    let tags = [tag(0), tag(1), tag(2)];
    let Ok(plan) = plan(alloc, &graph, &tags, PlanKind::Sliding, 1, 1) else {
        return Err("plan")?;
    };
    let mut text = String::new(alloc);
    match gates(alloc, &graph, &plan, ops) {
        Ok(gates) => {
            for at in 0..ops.len() {
                let op = at as u32;
                write!(text, "{:?} at {}, ", gates.needs(op), gates.ready_round(op))?;
            }
        }
        Err(error) => write!(text, "{error:?}")?,
    }
    Ok(text)
}

#[test]
fn each_waits_for_its_windows_and_their_ancestors(rt: HostRuntime) -> Result<(), Fail> {
    let alloc = rt.alloc();
    let ops = vec![in alloc; op(alloc, 3, &[(0, 0)])?, op(alloc, 4, &[(0, 0), (1, 3)])?]?;
    let text = told(alloc, &ops)?;
    assert_eq!(rt; text.as_str(), "[0, 2] at 2, [0, 1] at 3, ");
    Ok(())
}

#[test]
fn the_first_that_is_too_early_is_told(rt: HostRuntime) -> Result<(), Fail> {
    let alloc = rt.alloc();
    let ops = vec![in alloc;
        op(alloc, 3, &[(0, 0)])?,
        op(alloc, 3, &[(1, 3)])?,
        op(alloc, 3, &[(0, 0), (1, 3)])?,
    ]?;
    let text = told(alloc, &ops)?;
    assert_eq!(rt; text.as_str(), "TooEarly { op: 1, ready_round: 3 }");
    Ok(())
}
