//! The least weight by trying every set of edges.

use graph_model::PartEdge;

/// So many sets are tried: those of the first ten edges.
const SETS: u32 = 1024;

/// The least weight of a set among the first ten edges whose boundary is the defects.
pub(crate) fn least_by_trying(places: u32, edges: &[PartEdge], defects: &[u32]) -> u32 {
    let mut least = u32::MAX;
    for mask in 0..SETS {
        if has_boundary(places, edges, defects, mask) {
            least = least.min(weight_of(edges, mask));
        }
    }
    least
}

fn has_boundary(places: u32, edges: &[PartEdge], defects: &[u32], mask: u32) -> bool {
    for place in 0..places {
        if is_odd_at(edges, mask, place) != defects.contains(&place) {
            return false;
        }
    }
    true
}

fn is_odd_at(edges: &[PartEdge], mask: u32, place: u32) -> bool {
    let mut odd = false;
    for (at, edge) in edges.iter().enumerate() {
        odd ^= is_chosen(mask, at) && (edge.first == place || edge.second == Some(place));
    }
    odd
}

fn weight_of(edges: &[PartEdge], mask: u32) -> u32 {
    let mut weight = 0u32;
    for (at, edge) in edges.iter().enumerate() {
        if is_chosen(mask, at) {
            weight = weight.saturating_add(edge.weight);
        }
    }
    weight
}

fn is_chosen(mask: u32, at: usize) -> bool {
    let mut rest = mask;
    for _ in 0..at {
        rest /= 2;
    }
    rest % 2 == 1
}
