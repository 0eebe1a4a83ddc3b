ghost use Rattle.std.specs.Prelude.{◌≡◌, ◌≢◌, ◌<◌, ◌≤◌, ◌∷◌, [], All, IfOk, IfSome, None, false, true, length};
ghost use Rattle.graph_model.specs.Graph.{IsEdge};
ghost use Rattle.graph_model.specs.Problems.{IsPartEdge};

use super::packed::packed;
use super::*;
use std::alloc::{AllocError, Global};
use std::sync::Arc;
use std::test::*;

#[test]
fn bits_hold_what_was_set(rt: HostRuntime) -> Result<(), Fail> {
    let mut bits = Bits::zeros(rt.alloc(), 3)?;
    assert_eq!(rt; bits.len(), 3);
    assert!(rt; !bits.get(1));
    bits.set(1, true);
    let copy = bits.copy(rt.alloc())?;
    assert!(rt; copy.get(1));
    assert!(rt; bits.same(&copy));
    bits.set(2, true);
    assert!(rt; !bits.same(&copy));
    Ok(())
}

#[test]
fn a_set_holds_its_members(rt: HostRuntime) -> Result<(), Fail> {
    let mut set = EdgeSet::new(rt.alloc());
    set.push(2)?;
    set.push(5)?;
    set.push(9)?;
    for (edge, is_member) in [(0, false), (2, true), (4, false), (9, true), (10, false)] {
        assert_eq!(rt; set.contains(edge), is_member);
    }
    assert_eq!(rt; set.copy(rt.alloc())?.as_slice(), [2, 5, 9].as_slice());
    Ok(())
}

fn edge(alloc: Global, first: u32, second: Option<u32>, weight: u32) -> Result<Edge, AllocError>
    requires first { first < 3 }
    requires second { IfSome second (λ w. (w < 3) × (w ≢ first)) }
    requires weight { weight ≤ 1000 }
    ensures { IfOk result (IsEdge 3) }
{
    Ok(Edge {
        first,
        second,
        weight,
        mask: Labels::new(alloc, Vec::from_slice(alloc, &[3])?)?,
    })
}

// Three detectors in a row, with an edge to the open boundary at each end of it.
fn edges_in_a_row(alloc: Global) -> Result<Vec<Edge>, AllocError>
    ensures fit { IfOk result (λ v. All (IsEdge 3) v.items) }
    ensures count { IfOk result (λ v. length v.items ≡ 4) }
{
    let mut edges = Vec::new(alloc);
    edges.push(edge(alloc, 0, None, 2)?)?;
    edges.push(edge(alloc, 0, Some(1), 3)?)?;
    edges.push(edge(alloc, 2, Some(1), 4)?)?;
    edges.push(edge(alloc, 2, None, 2)?)?;
    Ok(edges)
}

#[test]
fn a_graph_holds_its_edges(rt: HostRuntime) -> Result<(), Fail> {
    let graph = Graph::build(rt.alloc(), 3, edges_in_a_row(rt.alloc())?)?;
    assert_eq!(rt; graph.vertices(), 3);
    assert_eq!(rt; graph.edges(), 4);
    assert_eq!(rt; graph.edge(2).weight, 4);
    assert!(rt; graph.edge(2).mask.contains(3));
    assert_eq!(rt; graph.edge(2).mask.as_slice(), [3].as_slice());
    assert_eq!(rt; graph.incident(1), [1, 2].as_slice());
    Ok(())
}

#[test]
fn a_set_ends_where_an_odd_number_does(rt: HostRuntime) -> Result<(), Fail> {
    let graph = Graph::build(rt.alloc(), 3, edges_in_a_row(rt.alloc())?)?;
    let mut set = EdgeSet::new(rt.alloc());
    set.push(0)?;
    set.push(1)?;
    set.push(2)?;
    let boundary = graph.boundary(rt.alloc(), &set)?;
    for (detector, is_odd) in [(0, false), (1, false), (2, true)] {
        assert_eq!(rt; boundary.get(detector), is_odd);
    }
    assert_eq!(rt; graph.weight_of(&set), 9);
    Ok(())
}

// An edge without weight between detector 0 and the open boundary.
fn mark(edge: u32, owned: bool) -> PartEdge
    ensures { result ≡ record { edge = edge; first = 0; second = None; weight = 0; owned = owned } }
{
    PartEdge {
        edge,
        first: 0,
        second: None,
        weight: 0,
        owned,
    }
}

// One detector with two such edges, of which the window owns the first.
fn marks(alloc: Global) -> Result<Part, AllocError>
    ensures { IfOk result (λ p. p ≡ record {
      window = 6;
      detectors = 5 ∷ [];
      edges = record {
        edge = 4;
        first = 0;
        second = None;
        weight = 0;
        owned = true;
      } ∷ record {
        edge = 7;
        first = 0;
        second = None;
        weight = 0;
        owned = false;
      } ∷ [];
    }) }
{
    let detectors = Vec::from_slice(alloc, &[5])?;
    let edges = Vec::from_slice(alloc, &[mark(4, true), mark(7, false)])?;
    let part = Part::new(alloc, 6, detectors, edges)?;
    Ok(part)
}

#[test]
fn a_part_knows_what_is_owned_and_where_steps_lead(rt: HostRuntime) -> Result<(), Fail> {
    let part = marks(rt.alloc())?;
    assert!(rt; part.same(&marks(rt.alloc())?));
    assert!(rt; part.owns(4));
    assert!(rt; !part.owns(7));
    assert_eq!(rt; part.steps(0), [0, 2].as_slice());
    assert_eq!(rt; part.steps(1), [1, 3].as_slice());
    assert_eq!(rt; part.homes(), [0, 0].as_slice());
    part.is_part();
    Ok(())
}

#[test]
fn edges_are_found_by_place_and_by_number(rt: HostRuntime) -> Result<(), Fail> {
    let part = marks(rt.alloc())?;
    assert_eq!(rt; part.edges(), 2);
    assert_eq!(rt; part.edge(1), mark(7, false));
    for (number, found) in [
        (4, Some(mark(4, true))),
        (5, None),
        (7, Some(mark(7, false))),
    ] {
        assert_eq!(rt; part.numbered(number), found);
    }
    Ok(())
}

// An edge from the last place of the largest part.
fn last_edge(second: Option<u32>, weight: u32, owned: bool) -> PartEdge
    requires second { IfSome second (λ w. w < 8191) }
    requires weight { weight ≤ 1000 }
    ensures { IsPartEdge 8192 result }
{
    PartEdge {
        edge: 9_999_999,
        first: 8191,
        second,
        weight,
        owned,
    }
}

#[test]
fn packed_edges_are_the_same(rt: HostRuntime) -> Result<(), Fail> {
    let edges = [
        last_edge(None, 1000, true),
        last_edge(Some(0), 0, false),
        last_edge(Some(8190), 1, true),
    ];
    let small = packed(rt.alloc(), &edges)?;
    assert_eq!(rt; small.len(), 3);
    for (edge, packed) in edges.iter().zip(small.iter()) {
        assert_eq!(rt; packed.unpack(), *edge);
    }
    Ok(())
}

fn quiet_problem(alloc: Global) -> Result<Problem, AllocError>
    ensures { IfOk result (λ p. p ≡ record {
      part = record {
        window = 6;
        detectors = 5 ∷ [];
        edges = record {
          edge = 4;
          first = 0;
          second = None;
          weight = 0;
          owned = true;
        } ∷ record {
          edge = 7;
          first = 0;
          second = None;
          weight = 0;
          owned = false;
        } ∷ [];
      };
      defects = false ∷ [];
    }) }
{
    Ok(Problem {
        part: Arc::new(alloc, marks(alloc)?)?,
        defects: Bits::zeros(alloc, 1)?,
    })
}

fn both_marks(alloc: Global) -> Result<EdgeSet, AllocError>
    ensures { IfOk result (λ s. s ≡ 4 ∷ 7 ∷ []) }
{
    let mut set = EdgeSet::new(alloc);
    set.push(4)?;
    set.push(7)?;
    Ok(set)
}

#[test]
fn problems_are_compared(rt: HostRuntime) -> Result<(), Fail> {
    let problem = quiet_problem(rt.alloc())?;
    assert_eq!(rt; problem.weight(1), 0);
    assert!(rt; problem.same(&problem.copy(rt.alloc())?));
    problem.is_problem();
    Ok(())
}

#[test]
fn what_the_window_owns_is_kept(rt: HostRuntime) -> Result<(), Fail> {
    let problem = quiet_problem(rt.alloc())?;
    let set = both_marks(rt.alloc())?;
    let Ok(decoded) = Decoded::new(rt.alloc(), problem, set) else {
        return Err(AllocError.into());
    };
    decoded.is_least();
    assert_eq!(rt; decoded.kept.as_slice(), [4].as_slice());
    Ok(())
}
