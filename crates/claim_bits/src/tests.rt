//! What edges flip at the ends of a short path.
ghost use Rattle.std.specs.Prelude.{◌≡◌, ◌<◌, IfOk, IfSome, length, true};
ghost use Rattle.graph_model.specs.Graph.{IsEdge, is_in};
ghost use Rattle.window_model.specs.Windows.{places, window_at, window_count};

use crate::Arrivals;
use crate::flips::{has_ends, write_ends};
use detector_graph::{Bits, Edge, EdgeSet, Graph, Labels};
use predictor::{Near, Seeded, Zero};
use std::alloc::Global;
use std::test::*;

/// Three detectors in a row, and an edge from the last to the open boundary.
const ROWS: [(u32, Option<u32>); 3] = [(0, Some(1)), (1, Some(2)), (2, None)];

fn edge_of(alloc: Global, row: (u32, Option<u32>)) -> Option<Edge>
    ensures { IfSome result (λ e. IsEdge 3 e) }
{
    let (first, second) = row;
    let other = second.unwrap_or(first.wrapping_add(1));
    if first >= 3 || other == first || (second.is_some() && other >= 3) {
        return None;
    }
    let mask = Labels::none();
    Some(Edge {
        first,
        second,
        weight: 1,
        mask,
    })
}

fn path(alloc: Global) -> Result<Graph, Fail>
    ensures { IfOk result (λ g. g.vertices ≡ 3) }
{
    let mut edges = Vec::new(alloc);
    for row in ROWS {
        edges.push(edge_of(alloc, row).ok_or("ends")?)?;
    }
    if edges.len() > 10 {
        return Err("edges")?;
    }
    Ok(Graph::build(alloc, 3, edges)?)
}

/// What the first edge and the last flip at the first and the last detector, and whether bits of
/// which all are true are that.
fn at_the_ends(alloc: Global) -> Result<(bool, bool, bool), Fail> {
    let graph = path(alloc)?;
    if graph.edges() != 3 {
        return Err("edges")?;
    }
    let mut kept = EdgeSet::new(alloc);
    kept.push(0)?;
    kept.push(2)?;
    let mut bits = Bits::zeros(alloc, 2)?;
    let wrong = has_ends(&graph, &[0, 2], &kept, &bits);
    write_ends(&graph, &[0, 2], &kept, &mut bits);
    let right = has_ends(&graph, &[0, 2], &kept, &bits);
    Ok((wrong, right, bits.len() == 2 && bits.get(0) && bits.get(1)))
}

#[test]
fn flips_at_two_places(rt: HostRuntime) -> Result<(), Fail> {
    let (wrong, right, both) = at_the_ends(rt.alloc())?;
    assert!(rt; !wrong && right && both);
    Ok(())
}

/// Each kind of predictor may guess.
fn guess_by_each(arrivals: &Arrivals<'_>, source: u32, window: u32, into: &mut Bits)
    requires window { window < window_count arrivals.now.task.plan }
    requires source { is_in (window_at arrivals.now.task.plan window).deps source ≡ true }
    requires last { (window_at arrivals.now.task.plan window).last < arrivals.now.arrived }
    requires into { length into.old
        ≡ length (places arrivals.now.task.graph arrivals.now.task.plan source window) }
    ensures { length into.new ≡ length into.old }
{
    arrivals.write_guesses(&Zero, source, window, into);
    arrivals.write_guesses(&Near, source, window, into);
    arrivals.write_guesses(&Seeded { seed: 7 }, source, window, into);
}
