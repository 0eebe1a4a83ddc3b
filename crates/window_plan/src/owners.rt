//! The windows that own the edges.
ghost use Rattle.std.specs.Prelude.{◌≡◌, ◌<◌, ℕ, List, IfOk, length, map};
ghost use Rattle.graph_model.specs.Graph.{IsEdge};
ghost use Rattle.window_model.specs.Windows.{owner_of};

use detector_graph::{Edge, Graph};
use std::alloc::{AllocError, Global};

/// The window that owns an edge: the lowest home of its ends.
fn owner(homes: &[u32], edge: &Edge) -> u32
    requires { IsEdge (length homes.now) edge.now }
    ensures { result ≡ owner_of homes.now edge.now }
{
    let first = homes[edge.first as usize];
    match edge.second {
        Some(second) => first.min(homes[second as usize]),
        None => first,
    }
}

/// The owners of all edges.
pub(crate) fn owners_of(alloc: Global, graph: &Graph, homes: &[u32]) -> Result<Vec<u32>, AllocError>
    requires { length homes.now ≡ graph.now.vertices }
    ensures { IfOk result (λ v. v.items ≡ map (owner_of homes.now) graph.now.edges) }
{
    let mut owners = Vec::with_capacity(alloc, graph.edges() as usize)?;
    for number in 0..graph.edges() {
        owners.push(owner(homes, graph.edge(number)))?;
    }
    Ok(owners)
}
