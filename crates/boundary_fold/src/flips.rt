//! What a set of edges flips.
ghost use Rattle.std.specs.Prelude.{◌≡◌, ◌<◌, All, length};
ghost use Rattle.graph_model.specs.Graph.{boundary};

use detector_graph::{EdgeSet, Graph};

/// Whether an odd number of the kept edges end at the detector. It looks at the detector's edges
/// alone.
pub fn out_flip(graph: &Graph, place: u32, kept: &EdgeSet) -> bool
    requires place { place < graph.now.vertices }
    requires kept { All (λ e. e < length graph.now.edges) kept.now }
    ensures { result ≡ boundary graph.now kept.now place }
{
    let _kept = kept.as_slice();
    let mut flip = false;
    for edge in graph.incident(place) {
        flip = flip != kept.contains(*edge);
    }
    flip
}
