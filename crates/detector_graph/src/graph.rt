//! A graph, and the boundary and the weight of a set of its edges.
ghost use Rattle.std.specs.Prelude.{◌≡◌, ◌<◌, ◌≤◌, ℕ, false, length, All, IfOk, Some, slice_get, slice_index_or};
ghost use Rattle.graph_model.specs.Limits.{most_edges};
ghost use Rattle.graph_model.specs.Parity.{◌⊕◌};
ghost use Rattle.graph_model.specs.Graph.{IsEdge, IsGraph, boundary, ends_of, incident_edges, is_in, weight_of};

use crate::incidence::incidence;
use crate::{Bits, Edge, EdgeSet, Rows};
use std::alloc::{AllocError, Global};
use std::marker::Model;

/// A graph of detectors. Its edges are numbered in order from 0.
pub struct Graph {
    vertices: u32,
    edges: Vec<Edge>,
    incidence: Rows,
}

impl Drop for Graph {
    fn drop(self) {
        let Graph {
            vertices: _,
            edges: _,
            incidence: _,
        } = self;
    }
}

impl Model for Graph {
    ghost use Rattle.graph_model.specs.Graph.{DetectorGraph};
    ghost use Rattle.detector_graph.specs.Incidence.{IsIndexed};

    ghost Value = { DetectorGraph };

    ghost view = { λ g. record { vertices = g.vertices; edges = g.edges.items } };

    ghost invariant = { λ g. IsIndexed (record { vertices = g.vertices; edges = g.edges.items })
        g.incidence.rows };
}

impl Graph {
    /// A graph of exactly these edges, numbered in order. It costs time in proportion to their
    /// number.
    pub fn build(alloc: Global, vertices: u32, edges: Vec<Edge>) -> Result<Graph, AllocError>
        requires fit { All (IsEdge vertices) edges.items }
        requires count { length edges.items ≤ most_edges }
        ensures { IfOk result (λ g. g ≡ record { vertices = vertices; edges = edges.items }) }
    {
        let incidence = incidence(alloc, vertices, &edges)?;
        Ok(Graph {
            vertices,
            edges,
            incidence,
        })
    }

    /// What holds of each graph.
    pub fn is_graph(&self)
        ensures ends { IsGraph self.now }
        ensures fit { All (IsEdge self.now.vertices) self.now.edges }
        ensures count { length self.now.edges ≤ most_edges }
    {
        let _ = &self.edges;
    }

    /// How many detectors there are.
    pub fn vertices(&self) -> u32
        ensures { result ≡ self.now.vertices }
    {
        self.vertices
    }

    /// How many edges there are.
    pub fn edges(&self) -> u32
        ensures { result ≡ length self.now.edges }
    {
        self.edges.len() as u32
    }

    /// The edge of this number.
    pub fn edge(&self, number: u32) -> &Edge
        requires { number < length self.now.edges }
        ensures value { slice_get self.now.edges number ≡ Some result.now }
        ensures fits { IsEdge self.now.vertices result.now }
    {
        &self.edges[number as usize]
    }

    /// The edges that end at the detector, ascending.
    pub fn incident(&self, detector: u32) -> &[u32]
        requires { detector < self.now.vertices }
        ensures { result.now ≡ incident_edges self.now detector }
    {
        self.incidence.row(detector)
    }

    /// A true place for each detector at which an odd number of the edges end.
    pub fn boundary(&self, alloc: Global, set: &EdgeSet) -> Result<Bits, AllocError>
        requires { All (λ e. e < length self.now.edges) set.now }
        ensures length { IfOk result (λ b. length b ≡ self.now.vertices) }
        ensures value { IfOk result (λ b. (v : ℕ) → slice_index_or b v false
            ≡ boundary self.now set.now v) }
    {
        let mut ends = Bits::zeros(alloc, self.vertices)?;
        for number in set.as_slice() {
            turn_ends(&mut ends, self.edge(*number));
        }
        Ok(ends)
    }

    /// The weights of the edges, added up.
    pub fn weight_of(&self, set: &EdgeSet) -> u64
        requires { All (λ e. e < length self.now.edges) set.now }
        ensures { result ≡ weight_of self.now set.now }
    {
        let mut total = 0;
        for number in set.as_slice() {
            total += self.edge(*number).weight as u64;
        }
        total
    }
}

/// Turns the values at the ends of an edge.
fn turn_ends(bits: &mut Bits, edge: &Edge)
    requires { IsEdge (length bits.old) edge.now }
    ensures len { length bits.new ≡ length bits.old }
    ensures value { (v : ℕ) → slice_index_or bits.new v false
        ≡ slice_index_or bits.old v false ⊕ is_in (ends_of edge.now) v }
{
    bits.flip(edge.first);
    if let Some(second) = edge.second {
        bits.flip(second);
    }
}
