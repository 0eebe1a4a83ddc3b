//! From the steps of a walk to its edges.
ghost use Rattle.std.specs.Prelude.{◌≡◌, ◌<◌, ◌+◌, ◌++◌, ◌==◌, ◌&&◌, ℕ, List, IfOk, OnOk, length, nat_lt, slice_index};
ghost use Rattle.std.specs.List.Sorted.{IsNonDecreasing};
ghost use Rattle.dist_search.specs.Hops.{Way};
ghost use Rattle.dist_search.specs.Tables.{IsOdd};

use crate::homes::Route;
use crate::search::Step;
use detector_graph::EdgeSet;
use std::alloc::{AllocError, Global};

/// The edges that lie an odd number of times on the two walks of a route.
pub(crate) fn edges_on(alloc: Global, steps: &[Step], route: Route) -> Result<EdgeSet, AllocError>
    requires first { (one : List ℕ) × Way steps.now route.first one }
    requires second { (two : List ℕ) × Way steps.now route.second two }
    ensures { IfOk result (λ set. (one two : List ℕ) → Way steps.now route.first one →
        Way steps.now route.second two → IsOdd (one ++ two) set) }
{
    let mut edges = Vec::new(alloc);
    trace(steps, route.first, &mut edges)?;
    trace(steps, route.second, &mut edges)?;
    odd_edges(alloc, edges)
}

/// Adds the edges of the steps before an end, back to the start.
fn trace(steps: &[Step], end: usize, edges: &mut Vec<u32>) -> Result<(), AllocError>
    requires { (way : List ℕ) × Way steps.now end way }
    ensures { OnOk result ((way : List ℕ) → Way steps.now end way →
        edges.new.items ≡ edges.old.items ++ way) }
{
    let mut at = end;
    while at > 0 {
        let step = steps[at - 1];
        edges.push(step.edge)?;
        at = step.before;
    }
    Ok(())
}

/// The set of the edges that stand an odd number of times in the list.
pub fn odd_edges(alloc: Global, mut edges: Vec<u32>) -> Result<EdgeSet, AllocError>
    ensures { IfOk result (IsOdd edges.items) }
{
    edges.sort_unstable();
    odd_of_sorted(alloc, &edges)
}

/// The same, of an ascending list.
fn odd_of_sorted(alloc: Global, edges: &[u32]) -> Result<EdgeSet, AllocError>
    requires { IsNonDecreasing edges.now }
    ensures { IfOk result (IsOdd edges.now) }
{
    let mut set = EdgeSet::new(alloc);
    let mut at = 0;
    while at < edges.len() {
        if is_twice(edges, at) {
            at += 2;
        } else {
            set.push(edges[at])?;
            at += 1;
        }
    }
    let _ = set.as_slice();
    Ok(set)
}

/// Whether the next place holds the same.
fn is_twice(edges: &[u32], at: usize) -> bool
    requires { at < length edges.now }
    ensures { result ≡ (nat_lt (at + 1) (length edges.now)
        && (slice_index edges.now at == slice_index edges.now (at + 1))) }
{
    at + 1 < edges.len() && edges[at] == edges[at + 1]
}
