//! A part's edges in half the room.
ghost use Rattle.std.specs.Prelude.{◌≡◌, ◌<◌, ◌≤◌, All, IfOk, IfSome};
ghost use Rattle.graph_model.specs.Limits.{most_places};
ghost use Rattle.graph_model.specs.Problems.{IsPartEdge};
ghost use Rattle.detector_graph.specs.Packed.{end_of};

use graph_model::PartEdge;
use std::alloc::{AllocError, Global};
use std::marker::Model;

/// What stands for a free end. It is more than a place of a part.
const FREE_END: u16 = u16::MAX;

/// An edge of a part in twelve bytes.
#[derive(Drop)]
pub(crate) struct PackedEdge {
    edge: u32,
    first: u16,
    /// A place, or `FREE_END`.
    second: u16,
    weight: u16,
    owned: bool,
}

impl Model for PackedEdge {
    ghost use Rattle.graph_model.specs.declared.PartEdge.{PartEdge};
    ghost use Rattle.detector_graph.specs.Packed.{end_of};

    ghost Value = { PartEdge };

    ghost view = { λ e. record {
      edge = e.edge;
      first = e.first;
      second = end_of e.second;
      weight = e.weight;
      owned = e.owned;
    } };
}

impl PackedEdge {
    /// The same edge, packed.
    fn pack(edge: &PartEdge) -> PackedEdge
        requires { IsPartEdge most_places edge.now }
        ensures { result ≡ edge.now }
    {
        PackedEdge {
            edge: edge.edge,
            first: edge.first as u16,
            second: packed_end(edge.second),
            weight: edge.weight as u16,
            owned: edge.owned,
        }
    }

    /// The same edge, unpacked.
    pub(crate) fn unpack(&self) -> PartEdge
        ensures { result ≡ self.now }
    {
        PartEdge {
            edge: self.edge,
            first: u32::from(self.first),
            second: unpacked_end(self.second),
            weight: u32::from(self.weight),
            owned: self.owned,
        }
    }

    /// Its number in the graph.
    pub(crate) fn number(&self) -> u32
        ensures { result ≡ self.now.edge }
    {
        self.edge
    }
}

/// How the second end of an edge is written.
fn packed_end(end: Option<u32>) -> u16
    requires { IfSome end (λ place. place < most_places) }
    ensures { end_of result ≡ end }
{
    match end {
        None => FREE_END,
        Some(place) => place as u16,
    }
}

/// The second end that is written so.
fn unpacked_end(written: u16) -> Option<u32>
    ensures { result ≡ end_of written }
{
    if written == FREE_END {
        return None;
    }
    Some(u32::from(written))
}

/// The same edges, packed.
pub(crate) fn packed(alloc: Global, edges: &[PartEdge]) -> Result<Vec<PackedEdge>, AllocError>
    requires { All (IsPartEdge most_places) edges.now }
    ensures { IfOk result (λ v. v.items ≡ edges.now) }
{
    let mut small = Vec::with_capacity(alloc, edges.len())?;
    for edge in edges {
        small.push(PackedEdge::pack(edge))?;
    }
    Ok(small)
}
