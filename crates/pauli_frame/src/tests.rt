ghost use Rattle.std.specs.Prelude.{◌≡◌, ◌<◌, All, IfOk, length};
ghost use Rattle.std.specs.List.Sorted.{IsStrictlyIncreasing};
ghost use Rattle.graph_model.specs.Limits.{most_observables};
ghost use Rattle.graph_model.specs.Graph.{GraphEdge, IsEdge};
ghost use Rattle.pauli_frame.specs.Frames.{mask_at};

use super::*;
use detector_graph::{Edge, EdgeSet, Graph, Labels};
use std::alloc::{AllocError, Global};
use std::test::*;

/// An edge from the one detector to the open boundary.
fn edge(mask: Labels) -> Edge
    requires ascending { IsStrictlyIncreasing mask }
    requires labels { All (λ l. l < most_observables) mask }
    ensures fits { IsEdge 1 result }
    ensures mask { result.mask ≡ mask }
{
    Edge {
        first: 0,
        second: None,
        weight: 1,
        mask,
    }
}

/// A set of edges of a graph whose observables are below the number of labels.
fn commit_all(frame: &mut Frame, graph: &Graph, set: &EdgeSet)
    requires edges { All (λ e. e < length graph.now.edges) set.now }
    requires masks { All (λ (edge : GraphEdge). All (λ l. l < 2) edge.mask) graph.now.edges }
    requires labels { length frame.old ≡ 2 }
    ensures { length frame.new ≡ 2 }
{
    frame.commit(graph, set);
}

/// Edges with observable 0, both, 1, and none.
fn graph(alloc: Global) -> Result<Graph, AllocError>
    ensures count { IfOk result (λ g. length g.edges ≡ 4) }
    ensures masks { IfOk result (λ g. All (λ (edge : GraphEdge). All (λ l. l < 2) edge.mask)
        g.edges) }
{
    let mut edges = Vec::new(alloc);
    edges.push(edge(Labels::new(alloc, Vec::from_slice(alloc, &[0])?)?))?;
    edges.push(edge(Labels::new(alloc, Vec::from_slice(alloc, &[0, 1])?)?))?;
    edges.push(edge(Labels::new(alloc, Vec::from_slice(alloc, &[1])?)?))?;
    edges.push(edge(Labels::none()))?;
    Graph::build(alloc, 1, edges)
}

/// The flips of the two observables, at first and after each edge from 0 on was committed by
/// itself.
fn told(alloc: Global) -> Result<String, Fail> {
    let graph = graph(alloc)?;
    let mut frame = Frame::new(alloc, 2)?;
    let mut text = String::new(alloc);
    add_flips(&mut text, &frame)?;
    for edge in 0..4 {
        let mut set = EdgeSet::new(alloc);
        set.push(edge)?;
        commit_all(&mut frame, &graph, &set);
        add_flips(&mut text, &frame)?;
    }
    Ok(text)
}

fn add_flips(text: &mut String, frame: &Frame) -> Result<(), AllocError>
    requires { length frame.now ≡ 2 }
{
    write!(text, "{} {}, ", frame.flip(0), frame.flip(1))
}

#[test]
fn each_commit_turns_what_was_there(rt: HostRuntime) -> Result<(), Fail> {
    let text = told(rt.alloc())?;
    let wanted = "false false, true false, false true, false false, false false, ";
    assert_eq!(rt; text.as_str(), wanted);
    Ok(())
}
